// The lines of a text.
ghost use Rattle.std.specs.Prelude.{◌≡◌};
ghost use Rattle.layout.specs.Words.{same};
ghost use Rattle.layout.specs.Session.{end_line};
ghost use Rattle.std.specs.Iterator.{at_most};
ghost use Rattle.reader.specs.Books.{count_of_lines, NextLine, BookEnd};
ghost use Rattle.reader.specs.Pieces.{size_left};

use crate::word::{NEWLINE, cut, same_word};

// "text over 65,536 bytes"
pub const TEXT: usize = 65536;

// The lines of a text that are left, without their bytes 10; the last of them is what stands behind the last byte 10.
#[derive(Drop)]
pub struct Lines<'a> {
    pub left: Option<&'a [u8]>,
}

impl<'a> Iterator for Lines<'a> {
    type Item = &'a [u8];

    ghost next_gives = { λ s r t. NextLine s.left r t.left };

    ghost remaining = { λ s. at_most (size_left s.left) };

    fn next(&mut self) -> Option<&'a [u8]> {
        let (line, left) = cut(self.left?, NEWLINE);
        self.left = left;
        Some(line)
    }
}

fn is_end(line: &[u8]) -> bool
    ensures { result ≡ same line.now end_line }
{
    same_word(line, b"(end)")
}

// "The book is the input up to and with its first line `(end)`": how many bytes that is, where such a line stands.
pub fn book_end(text: &[u8]) -> Option<usize>
    ensures { BookEnd text.now result }
{
    let mut lines = text;
    loop {
        // stays (no plainer): a `for` over `Lines` has each line, and not what is left behind it, by whose length the book's is known.
        let (line, left) = cut(lines, NEWLINE);
        let next = left?;
        if is_end(line) {
            return Some(text.len() - next.len());
        }
        lines = next;
    }
}

// How many lines the text has: bytes 10.
pub fn line_count(text: &[u8]) -> usize
    ensures { result ≡ count_of_lines text.now }
{
    text.iter().filter(|b| **b == NEWLINE).count()
}
