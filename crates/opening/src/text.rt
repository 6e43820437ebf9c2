// A text read line by line onto the two tables of a state, in whatever form its lines stand.
ghost use Rattle.std.specs.Prelude.{◌≡◌, ℕ, List, [], ◌∷◌, ℤ};
ghost use Rattle.layout.specs.Words.{Bytes, newline, split};
ghost use Rattle.layout.specs.Opening.{refused};
ghost use Rattle.opening.specs.Lines.{within_text, at_line, OpensAt, StandsAt, TakesAt, EndsAt, ReadAt};

use crate::lines::Lines;
use reader::text::TEXT;
use refusal::Refusal;

// "number and text line from 1 (0 for 9)"; "a missing line is the one after the last"
#[derive(Clone, Copy)]
pub struct RefusedAt {
    pub refusal: Refusal,
    pub line: usize,
}

// "text 9", which has no line
// stays (C): the number that stands in an answer, as other languages read it; `RefusedAt` has the same lines.
pub const NO_LINE: usize = 0;

// Where the lines of a text stand; what they have built stands in the tables.
pub trait OntoTables: Copy {
    // what stands there after those lines
    ghost stands: { StandsAt Self };

    // what the pieces from a number on open, read after those lines
    ghost opens: { OpensAt Self };

    // One line more, without its byte 10.
    fn take(self, cells: &mut [u16], literals: &mut [i16], line: &[u8]) -> Result<Self, Refusal>
        requires { stands self cells.old literals.old }
        ensures { TakesAt stands opens self cells.old literals.old line.now result cells.new literals.new };

    // After the last line.
    // stays (no plainer): no twin of `take`, which is given a line and answers where the text stands then, where this answers whether it may end there.
    fn end(self) -> Result<(), Refusal>
        ensures { (cells : List ℕ) (literals : List ℤ) → stands self cells literals → EndsAt (opens self cells literals) cells literals result };

    // a line without its byte 10 at the end is missing
    ghost unended: { (x : Self) (cells : List ℕ) (literals : List ℤ) (n b : ℕ) (l : Bytes) → opens x cells literals n ((b ∷ l) ∷ []) ≡ refused 1 n };
}

pub fn at<T>(line: usize, judged: Result<T, Refusal>) -> Result<T, RefusedAt>
    ensures { result ≡ at_line line judged }
{
    judged.map_err(|refusal| RefusedAt { refusal, line })
}

// What a text's lines build, or the first refusal.
pub fn read_text<R: OntoTables>(
    start: R,
    text: &[u8],
    cells: &mut [u16],
    literals: &mut [i16],
) -> Result<(), RefusedAt>
    requires { R.stands start cells.old literals.old }
    ensures { ReadAt
        (within_text text.now (R.opens start cells.old literals.old 1 (split newline text.now)))
        result
        cells.new
        literals.new }
{
    if text.len() > TEXT {
        return Err(RefusedAt {
            refusal: Refusal::TextTooLong,
            line: NO_LINE,
        });
    }
    let mut read = start;
    let mut number: usize = 1;
    // stays (no plainer): the number is asked for after the loop too, for the line that is missing; that of a zip ends with it.
    for line in Lines::of(text) {
        let line = at(number, line)?;
        read = at(number, read.take(cells, literals, line))?;
        number += 1;
    }
    at(number, read.end())
}
