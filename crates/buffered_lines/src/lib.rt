// The lines of an input that is read piece by piece into a buffer, whoever serves them: where the next one stands, what of a line is held whose end has not been
// read, one that is too long, and a last one that is not ended.
#![tactic(auto)]

ghost use Rattle.std.specs.Prelude.{◌≡◌, ◌≤◌, ◌+◌, ◌<◌, ◌||◌, length, ltb};
ghost use Rattle.buffered_lines.specs.Places.{waits, skips, served_as, LineIn, Behind, Refilled};

use line_buffer::{next_number, to_front};
use reader::word::{NEWLINE, cut};

// What is known of the line that the bytes begin with which are not used yet.
#[derive(Clone, Copy, PartialEq, Eq)]
pub enum Line {
    // nothing: its end is looked for first
    Next,
    // its end has not been read
    Begun,
    // it is too long: it is passed over to its end
    Overlong,
}

impl Line {
    // More is to be read before its end is looked for.
    pub fn waits(self) -> bool
        ensures { result ≡ waits self }
    {
        matches!(self, Line::Begun | Line::Overlong)
    }

    pub fn skips(self) -> bool
        ensures { result ≡ skips self }
    {
        matches!(self, Line::Overlong)
    }
}

// text[at..held] has been read and is not used yet; the line that it begins with, and its number in the input. Where the line waits, more is to be read behind it.
// stays (no plainer): `at` and `held` are numbers beside the buffer `text`, and no slice of it: the buffer is lent to each turn anew, where what is held is moved to
// its front and more is read behind it
#[derive(Clone, Copy)]
pub struct Place {
    pub line: Line,
    pub at: usize,
    pub held: usize,
    pub number: u64,
}

impl Place {
    // A line is served without what was passed over: one that is too long as an empty one.
    pub fn served(self, line: &[u8]) -> &[u8]
        ensures { result.now ≡ served_as (skips self.line) line.now }
    {
        let from = if self.line.skips() { line.len() } else { 0 };
        &line[from..]
    }

    // Behind a line of so many bytes and its byte 10.
    pub fn behind(self, length: usize) -> Place
        requires { self.at + length < self.held }
        ensures { Behind self length result }
    {
        Place {
            line: Line::Next,
            at: self.at + length + 1,
            held: self.held,
            number: next_number(self.number),
        }
    }

    // At the end of the input: a last line that is not ended is there.
    pub fn is_begun(self) -> bool
        ensures { result ≡ (skips self.line || ltb self.at self.held) }
    {
        self.line.skips() || self.at < self.held
    }

    // No whole line is held: what there is goes to the front, or is dropped where it fills the buffer.
    pub fn refill(self, text: &mut [u8]) -> Place
        requires { (self.at ≤ self.held) × (self.held ≤ length text.old) }
        ensures { Refilled self text.old result text.new }
    {
        let room = text.len();
        let left = to_front(&mut text[..self.held], self.at);
        let long = self.line.skips() || left == room;
        Place {
            line: if long { Line::Overlong } else { Line::Begun },
            at: 0,
            held: if long { 0 } else { left },
            number: self.number,
        }
    }
}

// The first line of the bytes, without its byte 10, where it is ended.
pub fn line_in(text: &[u8]) -> Option<&[u8]>
    ensures { LineIn text.now result }
{
    let (line, left) = cut(text, NEWLINE);
    left?;
    Some(line)
}
