// A closest reading as an answer, from what its call told in numbers, from the bytes of the reading and from the names of the variables, however the state lies.
#![tactic(auto)]

ghost use Rattle.std.specs.Prelude.{◌≡◌, length};
ghost use Rattle.std.proofs.Math.Option.{some};
ghost use Rattle.qbf.specs.Calls.{closest};
ghost use Rattle.answer_text.specs.Answered.{Answered};
ghost use Rattle.card_answers.specs.Lines.{line_answer};
ghost use Rattle.reading_answers.specs.Nearest.{card_found, NearestOn};

pub mod turn; // a closest reading whose call was made

use answer_text::Answer;
use answer_text::card::put_closest;
use answer_text::refused::put_search_refusal;
use card_answers::names::Names;
use closest_call::Nearest;
use refusal::Refusal;
use writer::answer::Closest;

// The card that the reading was found on.
pub fn card_found(nearest: Nearest) -> Result<usize, Refusal>
    ensures { result ≡ card_found nearest.told nearest.lines }
{
    match nearest.told {
        Ok(_) => Ok(nearest.lines),
        Err(refusal) => Err(refusal),
    }
}

// The reading, which the first of the lent bytes show, or the refusal.
pub fn put_nearest(
    out: &mut Answer<'_>,
    names: Names<'_>,
    reading: &[u8; tables::MOST_FREE],
    nearest: Nearest,
    line: u64,
) -> usize
    requires { NearestOn names nearest reading.now }
    ensures { (h : NearestOn names.entry nearest reading.now)
        → Answered
        out.old
        (line_answer h.read line (some (closest h.ceiling (length h.table) h.on h.off)))
        out.new
        result }
{
    let Nearest {
        told,
        lines,
        visits,
    } = nearest;
    let differs = match told {
        Ok(differs) => differs,
        Err(refusal) => return put_search_refusal(out, refusal.number(), visits, line),
    };
    let found = Closest {
        numbers: names.numbers,
        reading: &reading[..names.free],
        differs: differs as u64,
        lines: lines as u64,
        visits,
    };
    put_closest(out, found)
}
