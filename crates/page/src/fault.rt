// Refusal 36: whether the card has a page, and whether the table has the card.
ghost use Rattle.std.specs.Prelude.{◌≡◌, ltb};
ghost use Rattle.std.specs.List.{list_any};
ghost use Rattle.layout.specs.Page.{no_page};

use crate::{Card, MOST_LINES, pages};
use cover::CardLines;

// A byte above 2.
fn byte_above(lines: &[u8]) -> bool
    ensures { result ≡ list_any (ltb 2) lines.now }
{
    lines.iter().any(|b| *b > tables::ON)
}

pub fn refused(card: Card, number: usize) -> bool
    ensures { result ≡ no_page card.entry.table.now card.entry.lines card.entry.free number }
{
    if number == 0 {
        return true;
    }
    if pages(card.lines) < number {
        return true;
    }
    if MOST_LINES < card.lines {
        return true;
    }
    let lines = CardLines {
        count: card.lines,
        free: card.free,
    };
    if cover::fits(card.table.len(), lines) {
        return byte_above(&card.table[..card.lines * card.free]);
    }
    true
}
