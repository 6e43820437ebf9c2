// A QDIMACS text read line by line onto the two tables of a state.
ghost use Rattle.std.specs.Prelude.{◌≡◌};
ghost use Rattle.layout.specs.Words.{newline, split};
ghost use Rattle.opening.specs.Lines.{within_text, ReadAt};
ghost use Rattle.qdimacs_opening.specs.Stands.{problem_stands};
ghost use Rattle.qdimacs_opening.specs.Lines.{problem_opens};

use crate::problem::Problem;
use opening::lines::Lines;
use opening::text::{NO_LINE, RefusedAt, at};
use reader::text::TEXT;
use refusal::Refusal;

// What a text's lines build, or the first refusal. Its end writes too: a text without a clause has its flags declared there.
pub fn read_text(
    start: Problem,
    text: &[u8],
    cells: &mut [u16],
    literals: &mut [i16],
) -> Result<(), RefusedAt>
    requires { problem_stands start cells.old literals.old }
    ensures { ReadAt
        (within_text text.now (problem_opens start cells.old literals.old 1 (split newline text.now)))
        result
        cells.new
        literals.new }
{
    if text.len() > TEXT {
        return Err(RefusedAt {
            refusal: Refusal::TextTooLong,
            line: NO_LINE,
        });
    }
    let mut read = start;
    let mut number: usize = 1;
    // stays (no plainer): the number is asked for after the loop too, for the line that is missing; that of a zip ends with it.
    for line in Lines::of(text) {
        let line = at(number, line)?;
        read = at(number, read.take(cells, literals, line))?;
        number += 1;
    }
    at(number, read.end(cells))
}
