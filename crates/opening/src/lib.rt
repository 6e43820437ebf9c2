// Opening a text onto the two lent tables of a state, under limits of its own: the empty state that it starts from, its lines one after the other, and what
// a refused text leaves. Paper 01, "Text and program"; paper 02, wish 8.
#![tactic(auto)]

ghost use Rattle.qbf.specs.Formula.{capped};
ghost use Rattle.layout.specs.Opening.{open_text};
ghost use Rattle.opening.specs.Opened.{OpenedAt};

mod block;
pub mod book;
pub mod kept;
pub mod lines;
pub mod prepared;
pub mod stage;
pub mod text;

use book::Book;
use prepared::{closed, prepare};
use refusal::Refusal;
use state::parts::Limits;
use text::{NO_LINE, RefusedAt, read_text};

// Nothing is refused.
// stays (C): the number that stands in an answer, as other languages read it.
pub const NONE: u16 = 0;

// "A table of the state shorter than the limits ask is 22"
pub const TOO_SHORT: RefusedAt = RefusedAt {
    refusal: Refusal::Malformed,
    line: NO_LINE,
};

// A text of the first edition. Where it is refused what stands in the tables is malformed.
pub fn open(
    text: &[u8],
    limits: Limits,
    cells: &mut [u16],
    literals: &mut [i16],
) -> Result<(), RefusedAt>
    ensures { OpenedAt
        (capped limits.numbers limits.clauses)
        (open_text (capped limits.numbers limits.clauses) text.now)
        cells.old
        literals.old
        result
        cells.new
        literals.new }
{
    let Some(layout) = prepare(limits, cells, literals) else {
        return Err(TOO_SHORT);
    };
    let read = read_text(Book::first(layout), text, cells, literals);
    closed(cells, read)
}
