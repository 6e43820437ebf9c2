// The card on a printed page: 24 rows of 72 bytes, by value. A card's table has lines of f bytes: 0 open, 1 off, 2 on.
#![tactic(auto)]

ghost use Rattle.std.specs.Prelude.{◌≡◌};
ghost use Rattle.layout.specs.Page.{pages as pagesOf, printed, page_refusal};
ghost use Rattle.refusal.specs.Refusal.{number_if};

use fault::refused;
use refusal::Refusal;
use row::{Numbered, page_row};

mod fault; // 36
pub mod lent; // a page in a lent table
mod row;

// "a page is 24 rows of 72 bytes, each row's last byte being 10"
pub const ROWS: usize = 24;

pub const COLUMNS: usize = 72;

// "Rows 2 to 23 hold one line each"
pub const LINES: usize = ROWS - 2;

// "more than 99,999 lines"
pub const MOST_LINES: usize = 99999;

// A card: how many lines of how many bytes stand at the start of its table.
#[derive(Clone, Copy)]
pub struct Card<'a> {
    pub table: &'a [u8],
    pub lines: usize,
    pub free: usize,
}

// "A card without lines is one page."
pub fn pages(lines: usize) -> usize
    ensures { result ≡ pagesOf lines }
{
    if lines == 0 {
        1
    } else {
        (lines - 1) / LINES + 1
    }
}

// "A page the card does not have, more than 99,999 lines or than the table holds, or a byte above 2 in any line is 36"
pub fn refusal(card: Card, number: usize) -> Option<Refusal>
    ensures { number_if result ≡ page_refusal card.entry.table.now card.entry.lines card.entry.free number }
{
    if refused(card, number) {
        Some(Refusal::NoPage)
    } else {
        None
    }
}

// A page of a card, or "a page of zero bytes".
pub fn page(card: Card, number: usize) -> [[u8; COLUMNS]; ROWS]
    ensures { result ≡ printed card.entry.table.now card.entry.lines card.entry.free number }
{
    let mut p = [[0u8; COLUMNS]; ROWS];
    if refused(card, number) {
        return p;
    }
    for (r, row) in p.iter_mut().enumerate() {
        *row = page_row(card, Numbered { number }, r);
    }
    p
}
