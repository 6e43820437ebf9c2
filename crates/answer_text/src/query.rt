// The line of a query: swap, keep or unsettled with the visits, or refused.
ghost use Rattle.std.specs.Prelude.{◌≤◌, length};
ghost use Rattle.layout.specs.Output.{query_text};
ghost use Rattle.answer_text.specs.Answered.{Answered};
ghost use Rattle.answer_text.specs.Texts.{ruling_text};

use crate::Answer;
use crate::refused::put_search_refusal;
use refusal::Refusal;
use replies::Ruling;
use writer::Output;

// A ruling's word, and the visits.
fn put_word(out: &mut Answer<'_>, word: &[u8], visits: u64) -> usize
    requires { length word.now ≤ 9 }
    ensures { Answered out.old (query_text word.now visits) out.new result }
{
    let bytes = &mut *out.bytes;
    let mut text = Output { bytes, at: 0 };
    text.put_query(word, visits);
    text.at
}

pub fn put_ruling(
    out: &mut Answer<'_>,
    ruling: Result<Ruling, Refusal>,
    visits: u64,
    line: u64,
) -> usize
    ensures { Answered out.old (ruling_text ruling visits line) out.new result }
{
    match ruling {
        Ok(Ruling::Swap) => put_word(out, b"swap", visits),
        Ok(Ruling::Keep) => put_word(out, b"keep", visits),
        Ok(Ruling::Unsettled) => put_word(out, b"unsettled", visits),
        Err(refusal) => put_search_refusal(out, refusal.number(), visits, line),
    }
}
