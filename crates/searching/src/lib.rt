// The search on the tables of a state, which are only read: what is learned is left on the shelves of the workspace. Steps 1 to 4 at the start node read the
// state's own tables; where they leave it open, the tables of a search are derived and it goes on below.
#![tactic(auto)]

pub mod given; // the tables that are searched
pub mod run; // the search
pub mod task; // what it is asked
pub mod words; // the words of the literals at the start node
