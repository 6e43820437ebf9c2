// Reading a line of either edition: a form of the first, a rule with its tag, or exactly one of some literals. Equal to its definition in
// editions, for every byte string.
#![tactic(auto)]

pub mod line;

#[derive(Clone, Copy, PartialEq, Eq)]
pub enum Edition {
    First,
    Second,
}
