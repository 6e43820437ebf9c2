// Where the constraint that a visit hands up lies.
ghost use Rattle.search_entry.specs.Within.{Bounded};

use crate::Source;

// A part of a table, no longer than a constraint.
#[derive(Clone, Copy)]
pub struct Bounds {
    pub source: Source,
    pub start: usize,
    pub len: usize,
    pub ghost inside: { Bounded source start len },
}
