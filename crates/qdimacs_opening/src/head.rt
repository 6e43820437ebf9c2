// How far a text is read, and what its header promised.

// Nothing but comments, the header and quantifier lines, clauses.
#[derive(Clone, Copy, PartialEq, Eq)]
pub enum Part {
    Start,
    Groups,
    Clauses,
}

// The counts are the header's. Where there are more flags than may be they stand in the tables as variables of exists, as many as `crowd` says.
#[derive(Clone, Copy)]
pub struct Head {
    pub part: Part,
    pub variables: usize,
    pub clauses: usize,
    pub crowd: usize,
}
