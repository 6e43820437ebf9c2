// What is told of a text: its length in the table; a refusal; and a table that is too short.
ghost use Rattle.std.specs.Prelude.{◌≡◌};
ghost use Rattle.answer_text.specs.Room.{TooShort};
ghost use Rattle.answer_text.specs.Books.{PrintsRefusal};

use crate::refused::refuse;
use crate::{ANSWER, Answer};
use book_writer::Written;
use refusal::Refusal;

// In a table of fewer than ANSWER bytes nothing is written.
pub fn short(out: &mut [u8]) -> Written
    ensures { TooShort result.refusal result.length out.old out.new }
{
    cover::clear(out);
    Written::from(Err(Refusal::TableTooShort))
}

pub fn told(length: usize) -> Written
    ensures { (result.refusal ≡ 0) × (result.length ≡ length) }
{
    Written::from(Ok(length))
}

// What a session prints for a text that is refused.
// stays (no plainer): `refusal_text` is of every number; a `Refusal` is one of 23, and would ask more of a caller
pub fn print_refusal(refusal: u16, line: usize, out: &mut [u8]) -> Written
    ensures { PrintsRefusal refusal line out.old result out.new }
{
    if out.len() < ANSWER {
        return short(out);
    }
    let mut answer = Answer { bytes: out };
    let length = refuse(&mut answer, refusal, line as u64);
    told(length)
}
