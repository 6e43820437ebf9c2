// A line that asks for the book's text or for a page, without its byte 10: `(write)`, `(write 4)` with a table of so many bytes, or
// `(page 1)`.
ghost use Rattle.layout.specs.Words.{space, split};
ghost use Rattle.sessions.specs.Session.{write_request, page_request};
ghost use Rattle.reader.specs.Pieces.{pieces};
ghost use Rattle.reader.specs.Requests.{from_items, from_words, from_line, RequestRead};

use crate::brackets::inside;
use crate::limit::SIZE;
use crate::number::{read_number, read_up_to};
use crate::text::TEXT;
use crate::word::{SPACE, cut, same_word};

// The whole text in a table that is large enough, or in one of so many bytes; or a page by its number. A line that is none of them may
// be a call.
#[derive(Clone, Copy)]
pub enum RequestLine {
    Whole,
    Into(usize),
    Page(usize),
}

// What is left behind the word `write`.
fn write_items(left: Option<&[u8]>) -> Option<RequestLine>
    ensures { RequestRead (from_items write_request (pieces space left.entry)) result }
{
    let Some(words) = left else {
        return Some(RequestLine::Whole);
    };
    let size = read_up_to(words, SIZE)?;
    Some(RequestLine::Into(size as usize))
}

// What is left behind the word `page`.
fn page_items(left: Option<&[u8]>) -> Option<RequestLine>
    ensures { RequestRead (from_items page_request (pieces space left.entry)) result }
{
    let page = read_number(left?)?;
    Some(RequestLine::Page(page as usize))
}

// What stands between a line's brackets.
fn request_words(s: &[u8]) -> Option<RequestLine>
    ensures { RequestRead (from_words (split space s.now)) result }
{
    let (word, left) = cut(s, SPACE);
    if same_word(word, b"write") {
        return write_items(left);
    }
    if same_word(word, b"page") {
        return page_items(left);
    }
    None
}

pub fn read_request(l: &[u8]) -> Option<RequestLine>
    ensures { RequestRead (from_line l.now) result }
{
    if TEXT < l.len() {
        return None;
    }
    request_words(inside(l)?)
}
