// A refusal at the start of the lent table.
ghost use Rattle.std.specs.Prelude.{◌≡◌, ◌≤◌, length};
ghost use Rattle.layout.specs.Output.{refusal_text, overflow_text};
ghost use Rattle.layout.specs.Session.{search_refusal_text, tells_visits as told};
ghost use Rattle.writer.specs.Wrote.{Wrote};
ghost use Rattle.answer_text.specs.Room.{refusal_bytes};
ghost use Rattle.answer_text.specs.Answered.{Answered};

use crate::Answer;
use refusal::Refusal;
use writer::Output;

// "a card too large prints only `(refused 21 0)`"
const CARD_LINE: u64 = 0;

// A table of 52 bytes holds every refusal.
// stays (no plainer): `refusal_text` is of every number; a `Refusal` is one of 23, and would ask more of a caller
pub fn write_refusal(out: &mut [u8], refusal: u16, line: u64) -> usize
    requires { refusal_bytes ≤ length out.old }
    ensures { Wrote out.old 0 (refusal_text refusal line) out.new result }
{
    let mut text = Output { bytes: out, at: 0 };
    text.put_refusal(refusal as u64, line);
    text.at
}

// stays (no plainer): `refusal_text` is of every number; a `Refusal` is one of 23, and would ask more of a caller
pub fn refuse(out: &mut Answer<'_>, refusal: u16, line: u64) -> usize
    ensures { Answered out.old (refusal_text refusal line) out.new result }
{
    write_refusal(out.bytes, refusal, line)
}

// .. of a text's card, which has no line.
// stays (no plainer): `refusal_text` is of every number; a `Refusal` is one of 23, and would ask more of a caller
pub fn refuse_card(out: &mut Answer<'_>, refusal: u16) -> usize
    ensures { Answered out.old (refusal_text refusal 0) out.new result }
{
    refuse(out, refusal, CARD_LINE)
}

// stays (no plainer): it could take a `Refusal` only if its caller `put_search_refusal` had one, which is of every number
fn refuse_with_visits(out: &mut Answer<'_>, refusal: u16, line: u64, visits: u64) -> usize
    ensures { Answered out.old (overflow_text refusal line visits) out.new result }
{
    let bytes = &mut *out.bytes;
    let mut text = Output { bytes, at: 0 };
    text.put_overflow(refusal as u64, line, visits);
    text.at
}

// A card too large, a stopped call and a card without a line tell their visits.
// stays (no plainer): it could take a `Refusal` only if its caller `put_search_refusal` had one, which is of every number
fn tells_visits(refusal: u16) -> bool
    ensures { result ≡ told refusal }
{
    refusal == Refusal::TooManyLines.number()
        || refusal == Refusal::Stopped.number()
        || refusal == Refusal::NoLine.number()
        || refusal == Refusal::StoppedByShare.number()
}

// stays (no plainer): `search_refusal_text` is of every number; a `Refusal` is one of 23, and would ask more of a caller
pub fn put_search_refusal(out: &mut Answer<'_>, refusal: u16, visits: u64, line: u64) -> usize
    ensures { Answered out.old (search_refusal_text refusal line visits) out.new result }
{
    if tells_visits(refusal) {
        return refuse_with_visits(out, refusal, line, visits);
    }
    refuse(out, refusal, line)
}
