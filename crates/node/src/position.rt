// Where a visit stands at a node, and what of that the steps at it read; and where a node stands that has visited its off side.
ghost use Rattle.std.specs.Prelude.{◌≤◌, ◌<◌};
ghost use Rattle.qbf.specs.Formula.{highest};
ghost use Rattle.tables.specs.Matrices.{RowLength};

use crate::Answer;

// Where a visit stands: the node's length, the count of the free variables, the budget, the lines so far, and the words of a row of clauses; and
// whether the lines are Yes nodes or No nodes. The budget is one more than the visits that may still be made: a search that ends leaves 1 at least,
// and one that was stopped leaves 0. A word has a bit of each literal that is true there, and another of each that is false; it may have more.
#[derive(Clone, Copy)]
pub struct Position {
    pub at: usize,
    pub free: usize,
    pub budget: u64,
    pub lines: usize,
    pub words: usize,
    pub yes: bool,
    pub held: u64,
    pub failed: u64,
    pub ghost few: { free ≤ highest.numbers },
    pub ghost long: { RowLength words },
}

// How far the rows of clauses are read at a node: its length, and the words of a row.
#[derive(Clone, Copy)]
pub struct Depth {
    pub at: usize,
    pub words: usize,
    pub ghost within: { at ≤ highest.numbers },
    pub ghost long: { RowLength words },
}

// A node of `at` places that has visited its off side: the quantifier of its next variable, and what came up from that side.
#[derive(Clone, Copy)]
pub struct OffSide {
    pub at: usize,
    pub kind: u16,
    pub answer: Answer,
    pub ghost next: { at < highest.numbers },
}
