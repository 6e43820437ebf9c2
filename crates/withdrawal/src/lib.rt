// The learned clauses that a withdrawal leaves: those whose record is no larger than the count of clauses that remain, in their order, with
// their records. They are moved to the front of the tables in which they stand.
#![tactic(auto)]

ghost use Rattle.std.specs.Prelude.{◌≤◌};
ghost use Rattle.qbf.specs.Formula.{highest};
ghost use Rattle.withdrawal.specs.Learned.{Room, Movable, Moved, KeptRow, Kept};

// Row i goes behind those kept so far, which are no more than the rows before it, and its record behind theirs.
// stays (no plainer): parts of two tables that are lent to be written; of a struct of both nothing is known once they are given back
fn move_row(width: usize, cells: &mut [i16], sizes: &mut [u16], i: usize)
    requires { Movable width cells.old sizes.old i }
    ensures { Moved width i cells.old sizes.old cells.new sizes.new }
{
    let kept = sizes[0] as usize;
    let size = sizes[i + 1];
    let record = sizes[tables::CONSTRAINT_SIZES + i];
    let from = i * width;
    let end = from + size as usize;
    cells.copy_within(from..end, kept * width);
    sizes[kept + 1] = size;
    sizes[0] = (kept + 1) as u16;
    sizes[tables::CONSTRAINT_SIZES + kept] = record;
}

// It does so if its record is no larger than the count of clauses that remain.
// stays (no plainer): as `move_row`
fn keep_row(width: usize, cells: &mut [i16], sizes: &mut [u16], i: usize, remain: u16)
    requires { Movable width cells.old sizes.old i }
    ensures { KeptRow width i remain cells.old sizes.old cells.new sizes.new }
{
    if state::cells::record(sizes, i) > remain as usize {
        return;
    }
    move_row(width, cells, sizes, i);
}

// "Bars with a larger record than the rules that remain are dropped": rows of that many cells, with room for the records behind their sizes.
// stays (no plainer): as `move_row`
// stays (no plainer): `usize ≤ highest.numbers` is of a state's limit, which `Layout` keeps; the rows alone are lent here, and know no layout
pub fn leave(width: usize, cells: &mut [i16], sizes: &mut [u16], remain: u16)
    requires { (width ≤ highest.numbers) × Room width cells.old sizes.old }
    ensures { Kept width cells.old sizes.old remain cells.new sizes.new }
{
    let count = sizes[0] as usize;
    sizes[0] = 0;
    for i in 0..count {
        keep_row(width, cells, sizes, i, remain);
    }
}
