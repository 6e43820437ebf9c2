// The line that asks for the book's text.
ghost use Rattle.std.proofs.Math.Option.{none, some};
ghost use Rattle.answer_text.specs.Answered.{AnswerHeld};
ghost use Rattle.line_turns.specs.Line.{WriteTurnedAt};

use crate::{At, Turn};
use answer_text::Answer;
use text_answers::{put_text, put_whole};

// `(write 4)`
// stays (no plainer): `size` is that of the answer's table, and no length of `cells`
#[inline(never)]
pub fn serve_write(
    cells: &[u16],
    literals: &[i16],
    at: At,
    size: usize,
    out: &mut Answer<'_>,
) -> Turn
    ensures held { AnswerHeld out.old out.new }
    ensures turned { WriteTurnedAt cells.now literals.now (some size) at.number at.shown result out.new.bytes.now }
{
    let length = put_text(out, cells, literals, size, at.number);
    Turn {
        shown: at.shown,
        length,
    }
}

// `(write)`
#[inline(never)]
pub fn serve_whole(cells: &[u16], literals: &[i16], at: At, out: &mut Answer<'_>) -> Turn
    ensures held { AnswerHeld out.old out.new }
    ensures turned { WriteTurnedAt cells.now literals.now none at.number at.shown result out.new.bytes.now }
{
    let length = put_whole(out, cells, literals, at.number);
    Turn {
        shown: at.shown,
        length,
    }
}
