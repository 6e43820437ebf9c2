// The finder of step 1 as a call of its own, on tables that anybody lends, to try it at nodes that no search reaches. A clause has 16 cells of
// the first table, `sizes` their count and the number of literals of each; places, quantifiers and values stand by number.
#![tactic(auto)]

ghost use Rattle.qbf.specs.Formula.{paper};
ghost use Rattle.tables.specs.Views.{Standing};
ghost use Rattle.lowest_dead.specs.Found.{LowestIn};
ghost use Rattle.search_finder.specs.Lent.{Tells};

use lent_rows::LentRows;
use literal::{ByNumber, cell_at};
use lowest_dead::lowest_dead;

// Whether the rows that stand lie within the table.
// stays (C): the tables are those of the exported function, and `LentRows` is made of them only once this has said that they are rows
fn stand(cells: &[i16], sizes: &[u16]) -> bool
    ensures { Tells result cells.now sizes.now }
{
    let count = cell_at(sizes, 0) as usize;
    if sizes.len() <= count {
        return false;
    }
    let lengths = &sizes[1..=count];
    lengths
        .iter()
        .enumerate()
        .all(|(k, n)| k * tables::LITERALS + *n as usize <= cells.len())
}

// The index of the clause that step 1 takes; none where no clause is dead, and where they do not lie within their table.
// stays (C): the tables are those of the exported function, and `LentRows` is made of them only once `stand` has said that they are rows
pub fn search_finder_lowest_dead(clauses: &[i16], sizes: &[u16], shown: ByNumber) -> Option<usize>
    ensures { Standing paper.literals clauses.now sizes.now
        → LowestIn
        paper.literals
        clauses.now
        sizes.now
        shown.entry.places.now
        shown.entry.kinds.now
        shown.entry.values.now
        result }
{
    if !stand(clauses, sizes) {
        return None;
    }
    let rows = LentRows {
        cells: clauses,
        sizes,
        width: tables::LITERALS,
    };
    lowest_dead(rows, shown)
}
