// The tables that a search reads and those that it changes; where the constraint that a visit hands up lies in them, and that part: "the bar handed
// back is that part of the rule table, not a copy".
#![tactic(auto)]

ghost use Rattle.std.specs.Prelude.{◌≡◌, ◌+◌, ◌≤◌, ◌<◌, length, take, drop};
ghost use Rattle.search_entry.specs.Entry.{entry_at};

pub use bounds::Bounds;
use shelf::Shelf;

mod bounds; // where a constraint lies that goes up
pub mod workspace; // what a search derives from a state

// The clauses, each in a row under universal reduction and all in sets by code; and by code the quantifiers.
#[repr(C)]
#[derive(Drop)]
pub struct Matrix {
    pub rows: [u16; tables::CLAUSE_ROWS],
    pub sets: [u64; tables::CLAUSE_SETS],
    pub quantifiers: [u8; tables::CODES],
}

// The learned constraints of both polarities, on shelves in lent tables.
#[derive(Drop)]
pub struct Learned<'a> {
    pub clauses: Shelf<'a>,
    pub cubes: Shelf<'a>,
}

// What is known on the way down to a node: of each place the row of the clauses satisfied, and the mark that its value satisfied one more; and the
// cube and the resolvent that were made last.
#[repr(C)]
#[derive(Drop)]
pub struct Trail {
    pub sat: [u64; tables::SATISFIED],
    pub marks: [u8; tables::HIGHEST_BY_NUMBER],
    pub cube: [u16; tables::CODES_AREA],
    pub resolvent: [u16; tables::CODES_AREA],
}

// Room for a constraint of each level of a search: of each place a row, in which a node of that length puts its off side's constraint aside.
pub const ASIDE: usize = tables::HIGHEST_NUMBERS * tables::HIGHEST_NUMBERS;

// What a search changes, lent: what is learned and what is known on the way down; the statuses at the node; and what is put aside.
#[derive(Drop)]
pub struct Search<'a> {
    pub learned: Learned<'a>,
    pub trail: &'a mut Trail,
    pub statuses: &'a mut [u8; tables::CODES],
    pub aside: &'a mut [u16; ASIDE],
}

// In the clauses of the search, among the learned constraints of its polarity, or in the area in which step 3 makes a cube.
#[derive(Clone, Copy)]
pub enum Source {
    Clauses,
    Learned,
    Area,
}

// The codes of a constraint that goes up, where it is one of the clauses, of the learned constraints of that shelf, or a cube.
pub fn entry<'a>(
    clauses: &'a [u16; tables::CLAUSE_ROWS],
    learned: &'a [u16; tables::CONSTRAINT_CODES],
    area: &'a [u16; tables::CODES_AREA],
    b: Bounds,
) -> &'a [u16]
    ensures { (result.now ≡ entry_at b clauses.now learned.now area.now) × (length result.now ≡ b.len) }
{
    let cells: &[u16] = match b.source {
        Source::Clauses => clauses,
        Source::Learned => learned,
        Source::Area => area,
    };
    &cells[b.start..b.start + b.len]
}
