// The lines of a text, each ended by byte 10.
ghost use Rattle.opening.specs.Lines.{NextLine};
ghost use Rattle.std.specs.Prelude.{◌≡◌, length};
ghost use Rattle.std.specs.Iterator.{at_most};

use reader::word::{NEWLINE, cut};
use refusal::Refusal;

// What is left of the text.
#[derive(Drop)]
pub struct Lines<'a> {
    rest: &'a [u8],
}

impl<'a> Lines<'a> {
    pub fn of(text: &'a [u8]) -> Lines<'a>
        ensures { result.rest.now ≡ text.now }
    {
        Lines { rest: text }
    }
}

// A line without its byte 10; one that has none is missing.
impl<'a> Iterator for Lines<'a> {
    type Item = Result<&'a [u8], Refusal>;

    ghost next_gives = { λ s r t. NextLine s.rest.now r t.rest.now };

    ghost remaining = { λ s. at_most (length s.rest.now) };

    fn next(&mut self) -> Option<Result<&'a [u8], Refusal>> {
        if self.rest.is_empty() {
            return None;
        }
        let (line, left) = cut(self.rest, NEWLINE);
        let Some(rest) = left else {
            self.rest = &[];
            return Some(Err(Refusal::NotInLayout));
        };
        self.rest = rest;
        Some(Ok(line))
    }
}
