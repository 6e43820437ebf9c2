// Opening a QDIMACS text onto the two lent tables of a state, under limits of its own: the state that our own text would give. Paper 02, wishes 1 and 8.
#![tactic(auto)]

ghost use Rattle.qbf.specs.Formula.{capped};
ghost use Rattle.qdimacs_form.specs.Opening.{open_qdimacs};
ghost use Rattle.opening.specs.Opened.{OpenedAt};

mod flags;
mod groups;
mod head;
mod problem;
mod text;
mod whole;

use opening::TOO_SHORT;
use opening::prepared::{closed, prepare};
use opening::text::RefusedAt;
use problem::Problem;
use state::parts::Limits;
use text::read_text;

// Where it is refused what stands in the tables is malformed.
// stays (no plainer): as `opening::open`, with a loop of its own: flags are declared at the end of such a text, so that its end is lent the tables
pub fn open(
    text: &[u8],
    limits: Limits,
    cells: &mut [u16],
    literals: &mut [i16],
) -> Result<(), RefusedAt>
    ensures { OpenedAt
        (capped limits.numbers limits.clauses)
        (open_qdimacs (capped limits.numbers limits.clauses) text.now)
        cells.old
        literals.old
        result
        cells.new
        literals.new }
{
    let Some(layout) = prepare(limits, cells, literals) else {
        return Err(TOO_SHORT);
    };
    let read = read_text(Problem::first(layout), text, cells, literals);
    closed(cells, read)
}
