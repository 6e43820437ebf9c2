// The line that asks for a page of the card answered last: its 24 rows, or 36.
ghost use Rattle.sessions.specs.Session.{page_answer};
ghost use Rattle.answer_text.specs.Answered.{AnswerHeld, Answered};
ghost use Rattle.answer_text.specs.Shown.{card_in};
ghost use Rattle.session_lines.specs.Line.{PageTurnedAt, page_rows};

use answer_text::Answer;
use answer_text::refused::refuse;
use answer_text::shown::Shown;
use line_turns::{At, Turn};
use page::Card;
use page::lent::put_first;
use reader::call::TABLE;
use refusal::Refusal;

// The rows of a page, or 36.
fn put_rows(out: &mut Answer<'_>, table: &[u8], shown: Shown, k: usize, line: u64) -> usize
    ensures { Answered out.old (page_rows table.now shown.lines shown.free line k) out.new result }
{
    let card = Card {
        table,
        lines: shown.lines,
        free: shown.free,
    };
    match page::refusal(card, k) {
        Some(refusal) => refuse(out, refusal.number(), line),
        None => {
            let p = page::page(card, k);
            put_first(out.bytes, p)
        }
    }
}

fn put_shown(out: &mut Answer<'_>, cards: &[u8], shown: Shown, k: usize, line: u64) -> usize
    ensures { Answered out.old (page_answer (card_in shown cards.now) line k) out.new result }
{
    if shown.refusal != 0 {
        return refuse(out, Refusal::NoPage.number(), line);
    }
    let n = shown.size.min(cards.len());
    put_rows(out, &cards[..n], shown, k, line)
}

// The card is left.
#[inline(never)]
pub fn serve_page(at: At, k: usize, cards: &[u8; TABLE], out: &mut Answer<'_>) -> Turn
    ensures held { AnswerHeld out.old out.new }
    ensures turned { PageTurnedAt k at.number at.shown cards.now result out.new.bytes.now }
{
    let length = put_shown(out, cards, at.shown, k, at.number);
    Turn {
        shown: at.shown,
        length,
    }
}
