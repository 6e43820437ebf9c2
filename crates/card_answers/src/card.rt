// The line of a card or keep card: its lines and visits, or refused.
ghost use Rattle.std.specs.Prelude.{ℕ};
ghost use Rattle.std.proofs.Math.Option.{some};
ghost use Rattle.answer_text.specs.Answered.{Answered};
ghost use Rattle.card_answers.specs.Lines.{line_answer, card_for, ShownOn, ListedOn};

use crate::Filled;
use crate::names::Names;
use answer_text::Answer;
use answer_text::card::put_card;
use answer_text::refused::put_search_refusal;
use replies::Listed;
use writer::card::Lines;

// The card whose lines stand in the table.
pub fn put_shown(
    out: &mut Answer<'_>,
    names: Names<'_>,
    filled: Filled<'_>,
    lines: usize,
    visits: u64,
) -> usize
    requires { ShownOn names filled lines visits }
    ensures { (h : ShownOn names.entry filled.entry lines visits) (n : ℕ)
        → Answered
        out.old
        (line_answer h.read n (some (card_for filled.entry)))
        out.new
        result }
{
    let lines = Lines {
        numbers: names.numbers,
        table: filled.table,
        free: names.free,
        count: lines,
    };
    put_card(out, filled.sought.yes, lines, visits)
}

// .. or its refusal.
pub fn put_listed(
    out: &mut Answer<'_>,
    names: Names<'_>,
    filled: Filled<'_>,
    listed: Listed,
    line: u64,
) -> usize
    requires { ListedOn names filled listed }
    ensures { (h : ListedOn names.entry filled.entry listed)
        → Answered
        out.old
        (line_answer h.read line (some (card_for filled.entry)))
        out.new
        result }
{
    let Listed { lines, visits } = listed;
    match lines {
        Ok(count) => put_shown(out, names, filled, count, visits),
        Err(refusal) => put_search_refusal(out, refusal.number(), visits, line),
    }
}
