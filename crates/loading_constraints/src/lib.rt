// The learned constraints of one polarity go from the state's table onto a shelf, the oldest first.
#![tactic(auto)]

ghost use Rattle.std.specs.Prelude.{◌≡◌, map, ◌≤◌, length, get_or};
ghost use Rattle.qbf.specs.Formula.{paper, highest, Prefix};
ghost use Rattle.tables.specs.Views.{Places, rows_of};
ghost use Rattle.tables.specs.Codes.{codes};
ghost use Rattle.shelf.specs.Standing.{rows, newest};
ghost use Rattle.lent_rows.specs.Held.{Held};

use lent_rows::LentRows;
use shelf::Shelf;

// Every row of the table goes onto an empty shelf.
pub fn load<'a>(table: LentRows<'a>, places: &'a [u16], shelf: &mut Shelf<'_>)
    requires { Held table.width paper.constraints table.cells.now table.sizes.now
        × (table.width ≤ highest.numbers)
        × (newest shelf.old ≡ 0) }
    ensures { (newest shelf.new ≡ get_or table.entry.sizes.now 0 0)
        × ((D : Prefix)
        → Places D places.now
        → length D ≤ highest.numbers
        → rows shelf.new
        ≡ map (codes D) (rows_of table.entry.width table.entry.cells.now table.entry.sizes.now)) }
{
    let count = table.count();
    // stays (proof): with `for row in table.rows()` the goal `push_literals-requires` stays open: what the iterator yields says nothing of how long a row is, which `row(k)` does
    for k in 0..count {
        shelf.push_literals(table.row(k), places);
    }
}
