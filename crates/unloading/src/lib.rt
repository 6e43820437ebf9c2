// The learned constraints of one polarity are written back from a shelf into the state's table, the oldest first.
#![tactic(auto)]

ghost use Rattle.std.specs.Prelude.{◌≡◌, true, List, [], map, suc, ◌+◌, ◌-◌, ◌*◌, ◌%◌, ◌≤◌, ◌<◌, length, get_or, take, drop};
ghost use Rattle.qbf.specs.Formula.{paper, highest, Prefix, Literal, place};
ghost use Rattle.qbf.specs.Learning.{Constraint};
ghost use Rattle.qbf.specs.Card.{Mem};
ghost use Rattle.qbf.specs.Calls.{numbers_are_ok};
ghost use Rattle.tables.specs.Views.{Numbers, rows_of};
ghost use Rattle.tables.specs.Codes.{codes};
ghost use Rattle.tables.specs.Shelves.{newest_of, base_of};
ghost use Rattle.shelf.specs.Standing.{rows, newest};
ghost use Rattle.lent_rows.specs.Held.{Held};
ghost use Rattle.unloading.specs.Table.{Same};
ghost use Rattle.unloading.specs.Written.{Narrow, entry_at, Unloaded, RecordsFrom, Recorded};

pub mod lent; // the table that is written

use coding::code::literal_of;
use lent::LentTable;
use shelf::Shelf;

// How many rows stand, by the newest row's number.
fn standing(newest: u64) -> usize
    ensures { (result ≡ newest - (newest - paper.constraints)) × (result ≤ paper.constraints) }
{
    newest.min(tables::CONSTRAINTS as u64) as usize
}

// The number before that of the oldest row that stands.
// stays (no plainer): `before_oldest` of shelf takes the number of slots and is private there: for this one subtraction it would be public, and be given that number at each call
fn base_of(newest: u64) -> u64
    ensures { result ≡ newest - paper.constraints }
{
    newest.saturating_sub(tables::CONSTRAINTS as u64)
}

// The slot of the row that stands at index k, from the oldest.
fn slot_at(newest: u64, k: usize) -> usize
    requires { k < newest - (newest - paper.constraints) }
    ensures { (result ≡ (newest - paper.constraints + k) % paper.constraints) × (result < paper.constraints) }
{
    let number = base_of(newest) + k as u64;
    (number % tables::CONSTRAINTS as u64) as usize
}

// The literals of a row's codes, from a cell on; the cells before it stay.
fn decode<'a>(store: &mut [i16], at: usize, row: &'a [u16], numbers: &'a [u16])
    requires { at + length row.now ≤ length store.old }
    ensures { (length store.new ≡ length store.old)
        × (take at store.new ≡ take at store.old)
        × ((D : Prefix) (e : Constraint)
        → Numbers D numbers.now
        → numbers_are_ok highest [] D ≡ true
        → row.now ≡ codes D e
        → ((l : Literal) → Mem l e → 1 ≤ place D l)
        → take (length row.now) (drop at store.new) ≡ e) }
{
    // stays (proof): with `store[at..].iter_mut().zip(row)` the goal `returns` stays open: an invariant of that loop has what the iterator gave, and no cell
    // that was written through it
    for (i, code) in row.iter().enumerate() {
        store[at + i] = literal_of(numbers, *code);
    }
}

// The row that stands at index k is written into row k of the table; the rows before it stay.
fn unload_row<'a>(shelf: &'a Shelf<'_>, numbers: &'a [u16], table: &mut LentTable<'_>, k: usize)
    requires { (k < newest shelf.now - base_of paper.constraints shelf.now.links.now)
        × (length (entry_at shelf.now.cells.now shelf.now.links.now k) ≤ table.old.width) }
    ensures same { Same table.old table.new }
    ensures unloaded { Unloaded
        table.old.width
        numbers.now
        (entry_at shelf.now.cells.now shelf.now.links.now k)
        k
        table.old.cells.now
        table.old.sizes.now
        table.new.cells.now
        table.new.sizes.now }
{
    let row = shelf.row_in(slot_at(shelf.newest(), k));
    decode(table.cells, k * table.width, row, numbers);
    table.sizes[k + 1] = row.len() as u16;
}

// The rows one after the other, from the oldest; what stands behind the sizes stays.
pub fn unload_rows<'a>(shelf: &'a Shelf<'_>, numbers: &'a [u16], table: &mut LentTable<'_>)
    requires { Narrow table.old.width shelf.now.cells.now shelf.now.links.now }
    ensures same { Same table.old table.new }
    ensures unloaded { Held table.old.width paper.constraints table.new.cells.now table.new.sizes.now
        × ((D : Prefix) (es : List Constraint)
        → Numbers D numbers.now
        → numbers_are_ok highest [] D ≡ true
        → rows shelf.now ≡ map (codes D) es
        → ((e : Constraint) → Mem e es → (l : Literal) → Mem l e → 1 ≤ place D l)
        → rows_of table.old.width table.new.cells.now table.new.sizes.now ≡ es)
        × (get_or table.new.sizes.now 0 0 ≡ newest shelf.now - base_of paper.constraints shelf.now.links.now)
        × (drop (suc paper.constraints) table.new.sizes.now
        ≡ drop (suc paper.constraints) table.old.sizes.now)
        × (length table.new.cells.now ≡ length table.old.cells.now)
        × (length table.new.sizes.now ≡ length table.old.sizes.now) }
{
    let count = standing(shelf.newest());
    for k in 0..count {
        unload_row(shelf, numbers, table, k);
    }
    table.sizes[0] = count as u16;
}

// The records of the rows that stand, from the oldest: a row that was loaded has its own, which goes to the front with it, a younger one the count of clauses.
fn write_records(sizes: &mut [u16], newest: u64, before: usize, clauses: u16)
    requires { (suc paper.constraints + paper.constraints ≤ length sizes.old) × (before ≤ paper.constraints) }
    ensures { (length sizes.new ≡ length sizes.old) × RecordsFrom sizes.old newest before clauses sizes.new }
{
    let count = standing(newest);
    let displaced = base_of(newest).min(before as u64) as usize;
    let own = count.min(before - displaced);
    let from = tables::CONSTRAINT_SIZES + displaced;
    sizes.copy_within(from..from + own, tables::CONSTRAINT_SIZES);
    let younger = tables::CONSTRAINT_SIZES + own;
    sizes[younger..tables::CONSTRAINT_SIZES + count].fill(clauses);
}

// .. of the learned clauses, with their records behind the sizes.
pub fn unload_with_records<'a>(
    shelf: &'a Shelf<'_>,
    numbers: &'a [u16],
    table: &mut LentTable<'_>,
    clauses: u16,
)
    requires { (suc paper.constraints + paper.constraints ≤ length table.old.sizes.now)
        × (get_or table.old.sizes.now 0 0 ≤ paper.constraints)
        × Narrow table.old.width shelf.now.cells.now shelf.now.links.now }
    ensures same { Same table.old table.new }
    ensures unloaded { Held table.old.width paper.constraints table.new.cells.now table.new.sizes.now
        × ((D : Prefix) (es : List Constraint)
        → Numbers D numbers.now
        → numbers_are_ok highest [] D ≡ true
        → rows shelf.now ≡ map (codes D) es
        → ((e : Constraint) → Mem e es → (l : Literal) → Mem l e → 1 ≤ place D l)
        → rows_of table.old.width table.new.cells.now table.new.sizes.now ≡ es)
        × Recorded table.old.sizes.now (newest shelf.now) clauses table.new.sizes.now
        × (length table.new.cells.now ≡ length table.old.cells.now)
        × (length table.new.sizes.now ≡ length table.old.sizes.now) }
{
    let before = table.sizes[0] as usize;
    write_records(table.sizes, shelf.newest(), before, clauses);
    unload_rows(shelf, numbers, table);
}
