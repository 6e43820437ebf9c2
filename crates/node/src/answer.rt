// What a visit hands up.
ghost use Rattle.search_entry.specs.Within.{Bounded};

use crate::Verdict;
use search_entry::Source;

// What a visit hands up: the verdict, the bounds of its constraint in the lent tables, the budget that is left, and the lines so far.
#[derive(Clone, Copy)]
pub struct Answer {
    pub verdict: Verdict,
    pub source: Source,
    pub start: usize,
    pub len: usize,
    pub budget: u64,
    pub lines: usize,
    pub ghost inside: { Bounded source start len },
}
