// The state that opening starts from.
ghost use Rattle.qbf.specs.Formula.{capped};
ghost use Rattle.state_parts.specs.Initial.{Initial};

use crate::layout::NUMBERS_AT;
use crate::limits::Layout;
use literal::put;

// No variable, no clause and an empty store, under these limits, "capped at" the highest. Nothing is refused: on tables too short for them every call is
// refused with 22. The table of the literals is not written.
pub fn initial(cells: &mut [u16], numbers: usize, clauses: usize)
    ensures { Initial (capped numbers clauses) cells.old cells.new }
{
    let n = numbers.min(tables::HIGHEST_NUMBERS);
    let m = clauses.min(tables::HIGHEST_CLAUSES);
    let at = Layout {
        numbers: n,
        clauses: m,
    };
    put(cells, 0, n as u16);
    put(cells, 1, m as u16);
    put(cells, NUMBERS_AT, 0);
    put(cells, at.clause_sizes_at(), 0);
    put(cells, at.learned_clause_sizes_at(), 0);
    put(cells, at.learned_cube_sizes_at(), 0);
}
