// Whether a call may add a rule or an exactly-one form, and its first fault where it may not.
#![tactic(auto)]

pub mod forms; // of an exactly-one form
pub mod refusals; // of a rule
