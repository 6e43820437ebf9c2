// What was learned goes back from the shelves into the tables of its state, whatever form the state has.
ghost use Rattle.std.specs.Prelude.{◌≡◌, suc, ◌+◌, ◌*◌, ◌≤◌, length, get_or};
ghost use Rattle.qbf.specs.Formula.{paper};
ghost use Rattle.unloading.specs.Written.{Narrow};
ghost use Rattle.asking.specs.Stored.{ClausesStored, CubesStored};

use shelf::Shelf;
use unloading::lent::LentTable;
use unloading::{unload_rows, unload_with_records};

// The learned clauses, in rows of `width` literals, with the records of those that are new: so many clauses stand.
// stays (no plainer): the first three are a `LentTable`, which is made here: its callers would each prove the room that it keeps, over tables of another form
// stays (no plainer): the width is that of the state's limit, and measures no slice alone
pub fn clauses_back(
    cells: &mut [i16],
    sizes: &mut [u16],
    width: usize,
    shelf: &Shelf<'_>,
    numbers: &[u16],
    clauses: u16,
)
    requires { (paper.constraints * width ≤ length cells.old)
        × (suc paper.constraints + paper.constraints ≤ length sizes.old)
        × (get_or sizes.old 0 0 ≤ paper.constraints)
        × Narrow width shelf.now.cells.now shelf.now.links.now }
    ensures { ClausesStored width shelf.now numbers.now clauses cells.old sizes.old cells.new sizes.new }
{
    let mut table = LentTable {
        cells,
        sizes,
        width,
    };
    unload_with_records(shelf, numbers, &mut table, clauses);
}

// The learned cubes.
// stays (no plainer): the width, as in `clauses_back`
pub fn cubes_back(
    cells: &mut [i16],
    sizes: &mut [u16],
    width: usize,
    shelf: &Shelf<'_>,
    numbers: &[u16],
)
    requires { (paper.constraints * width ≤ length cells.old)
        × (suc paper.constraints ≤ length sizes.old)
        × Narrow width shelf.now.cells.now shelf.now.links.now }
    ensures { CubesStored width shelf.now numbers.now cells.old sizes.old cells.new sizes.new }
{
    let mut table = LentTable {
        cells,
        sizes,
        width,
    };
    unload_rows(shelf, numbers, &mut table);
}
