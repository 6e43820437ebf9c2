// The line of rule, withdraw and forget.
ghost use Rattle.std.specs.Prelude.{◌≤◌, length};
ghost use Rattle.answer_text.specs.Answered.{Answered};
ghost use Rattle.answer_text.specs.Texts.{change_text};

use crate::Answer;
use crate::refused::refuse;
use writer::Output;

// The word of a call that is done, or the refusal.
// stays (no plainer): `change_text` is of every number, 0 being a call that is done; a `Result<(), Refusal>` has 24 values, and would ask more of a caller
pub fn put_change(out: &mut Answer<'_>, done: &[u8], refusal: u16, line: u64) -> usize
    requires { length done.now ≤ 12 }
    ensures { Answered out.old (change_text done.now refusal line) out.new result }
{
    if refusal == 0 {
        let bytes = &mut *out.bytes;
        let mut text = Output { bytes, at: 0 };
        text.put_word(done);
        return text.at;
    }
    refuse(out, refusal, line)
}
