// A whole text.
ghost use Rattle.std.specs.Prelude.{◌≡◌, ◌≤◌, length};
ghost use Rattle.layout.specs.Words.{newline, split};
ghost use Rattle.layout.specs.Opening.{text_bytes};
ghost use Rattle.editions.specs.Converting.{lost_line};
ghost use Rattle.reader.specs.Numbers.{num_of};
ghost use Rattle.edition_tags.specs.Appended.{Appended, heading_to, text_to};

use crate::bytes::append;
use crate::line::{is_lost, next, put_line};
use crate::tag::Tag;
use edition_reader::Edition;
use reader::text::Lines;
use reader::word::{NEWLINE, cut};

// A text that is no longer than a text may be.
#[derive(Clone, Copy)]
pub struct Text<'a> {
    pub bytes: &'a [u8],
    pub ghost short: { length bytes.now ≤ text_bytes },
}

fn put_heading(to: Edition, d: &mut [u8]) -> usize
    ensures { Appended d.old 0 (heading_to to) d.new result }
{
    match to {
        Edition::First => append(d, 0, b"(book 1)"),
        Edition::Second => append(d, 0, b"(book 2)"),
    }
}

// The text in the other edition: its length, and its bytes where they fit.
// stays (no plainer): its length is the place that `append` counts on past the table's end, and no number of bytes that are written.
pub fn put_text(to: Edition, text: Text<'_>, d: &mut [u8]) -> usize
    ensures { Appended d.old 0 (text_to to text.entry.bytes.now) d.new result }
{
    let (_, left) = cut(text.bytes, NEWLINE);
    let lines = Lines { left };
    let mut n = put_heading(to, d);
    let mut k: usize = 1;
    for line in lines {
        let tag = Tag::of(k);
        n = put_line(to, line, &tag, d, n);
        k = next(line, &tag);
    }
    n
}

// The number of the first line whose tag would be lost.
pub fn lost_line(text: Text<'_>) -> Option<usize>
    ensures { num_of result ≡ lost_line (split newline text.entry.bytes.now) }
{
    let (_, left) = cut(text.bytes, NEWLINE);
    let lines = Lines { left };
    let mut k: usize = 1;
    for (number, line) in (2..).zip(lines) {
        let tag = Tag::of(k);
        if is_lost(line, &tag) {
            return Some(number);
        }
        k = next(line, &tag);
    }
    None
}
