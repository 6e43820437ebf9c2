// A page in a lent table, its rows one after another.
ghost use Rattle.std.specs.Prelude.{◌≡◌, ◌+◌, ◌≤◌, length};
ghost use Rattle.layout.specs.Words.{joined};
ghost use Rattle.layout.specs.Page.{page_bytes};
ghost use Rattle.writer.specs.Wrote.{Wrote};
ghost use Rattle.writer.specs.Appended.{Appended};
ghost use Rattle.refusal.specs.Refusal.{number_if};
ghost use Rattle.page.specs.Lent.{PageLent};

use crate::{COLUMNS, Card, ROWS};
use cover::clear;
use refusal::{Refusal, number_if};
use writer::Output;

pub const BYTES: usize = ROWS * COLUMNS;

pub fn put_page(out: &mut Output<'_>, p: [[u8; COLUMNS]; ROWS])
    requires { out.old.at + page_bytes ≤ length out.old.bytes.now }
    ensures wrote { Appended out.old (joined p) out.new }
    ensures value { out.new.at ≡ out.old.at + page_bytes }
{
    for row in &p {
        out.put_word(row);
    }
}

// The page at the start of a table that holds it.
pub fn put_first(table: &mut [u8], p: [[u8; COLUMNS]; ROWS]) -> usize
    requires { page_bytes ≤ length table.old }
    ensures wrote { Wrote table.old 0 (joined p) table.new result }
    ensures value { result ≡ page_bytes }
{
    let mut out = Output {
        bytes: table,
        at: 0,
    };
    put_page(&mut out, p);
    out.at
}

// The page, and zeros behind it; refused, zeros alone.
fn write_page(out: &mut [u8], card: Card, number: usize) -> Option<Refusal>
    ensures { PageLent card.entry.table.now card.entry.lines card.entry.free number out.old (number_if result) out.new }
{
    let refused = crate::refusal(card, number);
    if refused.is_some() {
        clear(out);
        return refused;
    }
    if out.len() < BYTES {
        clear(out);
        return Some(Refusal::TableTooShort);
    }
    let p = crate::page(card, number);
    let n = put_first(out, p);
    clear(&mut out[n..]);
    None
}

// .. with the number that other languages read.
pub fn page_into(out: &mut [u8], card: Card, number: usize) -> u16
    ensures { PageLent card.entry.table.now card.entry.lines card.entry.free number out.old result out.new }
{
    number_if(write_page(out, card, number))
}
