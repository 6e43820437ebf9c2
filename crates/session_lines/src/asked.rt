// What a line of a session asks for, read once.
ghost use Rattle.reader.specs.Requests.{from_line};
ghost use Rattle.session_lines.specs.Asked.{LineRead};

use reader::ceiling::{CeiledLine, read_call};
use reader::request::{RequestLine, read_request};

// The book's text or a page; or a call.
#[derive(Clone, Copy)]
pub enum SessionLine {
    Reads(RequestLine),
    Makes(CeiledLine),
}

// A line without its byte 10, what was read from it, and the table of its call's literals.
#[derive(Clone, Copy)]
pub struct Asked<'a> {
    pub bytes: &'a [u8],
    pub line: SessionLine,
    pub lits: &'a [i16; tables::BY_NUMBER],
}

pub fn read_line(line: &[u8], lits: &mut [i16; tables::BY_NUMBER]) -> Option<SessionLine>
    ensures { LineRead (from_line line.now) result lits.new }
{
    if let Some(request) = read_request(line) {
        return Some(SessionLine::Reads(request));
    }
    let read = read_call(line, lits)?;
    Some(SessionLine::Makes(read))
}
