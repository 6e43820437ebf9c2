// A query with an open flag: "goes as the plain walk from the empty node, entering one side only at a recorded flag. It neither reads nor adds to the store":
// what is learned is not lent.
ghost use Rattle.std.specs.Prelude.{◌≡◌, ◌≤◌};
ghost use Rattle.qbf.specs.Formula.{most_free};
ghost use Rattle.replies.specs.Replies.{ruling_said};
ghost use Rattle.asking.specs.OpenRun.{OpenRuled};

use crate::checked::Checked;
use open_run::asked::Asked;
use open_run::walk;
use replies::{Ruled, budget_of, visits_of};
use search_entry::{Matrix, Trail};

// "swap if every completion is a swap, keep if none is, otherwise unsettled"
// stays (no plainer): two tables of the workspace are lent apart, since the search of a reading with open flags is lent none of what was learned
pub fn query(
    checked: Checked<'_>,
    values: &[u8],
    free: usize,
    ceiling: u32,
    matrix: &mut Matrix,
    trail: &mut Trail,
) -> Ruled
    requires { free ≤ most_free }
    ensures { OpenRuled
        checked.entry.parts.variables.numbers.now
        checked.entry.parts.clauses.flat.now
        checked.entry.parts.clauses.sizes.now
        checked.entry.places.now
        checked.entry.kinds.now
        values.now
        free
        ceiling
        (ruling_said result.ruling result.visits) }
{
    let asked = Asked {
        numbers: checked.parts.variables.numbers,
        clauses: checked.parts.clauses.flat,
        clause_sizes: checked.parts.clauses.sizes,
        places: checked.places,
        kinds: checked.kinds,
        values,
        free,
    };
    let walked = walk(asked, matrix, trail, budget_of(ceiling));
    if walked.budget == 0 {
        return Ruled::stopped(ceiling);
    }
    Ruled::of(walked.verdict, visits_of(ceiling, walked.budget))
}
