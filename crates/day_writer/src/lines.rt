// The lines of a day at the start of a lent table that has room for each.
ghost use Rattle.std.specs.Prelude.{◌++◌, ◌≤◌, length};
ghost use Rattle.layout.specs.Output.{refusal_text};
ghost use Rattle.writer.specs.Wrote.{Wrote};
ghost use Rattle.day_text.specs.Output.{at_text, opened_text, shares_text};
ghost use Rattle.day_writer.specs.Room.{line_bytes};

use crate::place::{put_at, put_opened};
use crate::shares_line::put_shares;
use shares::BOOKS;
use writer::Output;

// stays (no plainer): `line_bytes ≤ length [u8]` is of a table that a day is lent whole; a type for it would be made for each of these calls, and taken off in each
// A table of so many bytes holds every line.
pub const LINE: usize = SHARE * BOOKS + 38;

// .. and of so many each place of the shares.
const SHARE: usize = 85;

// The place of the answer that follows.
#[tactic(auto, using(crate::proofs::Rooms::at_room))]
pub fn write_at(out: &mut [u8], place: u64) -> usize
    requires { line_bytes ≤ length out.old }
    ensures { Wrote out.old 0 (at_text place) out.new result }
{
    let mut text = Output { bytes: out, at: 0 };
    put_at(&mut text, place);
    text.at
}

// .. of a text that was opened
pub fn write_opened(out: &mut [u8], place: u64) -> usize
    requires { line_bytes ≤ length out.old }
    ensures { Wrote out.old 0 (at_text place ++ opened_text) out.new result }
{
    let mut text = Output { bytes: out, at: 0 };
    put_at(&mut text, place);
    put_opened(&mut text);
    text.at
}

// .. or refused, by its number and its line
// stays (no plainer): `refusal_text` is of every number; a `Refusal` is one of 23, and would ask more of a caller
pub fn write_refused(out: &mut [u8], place: u64, refusal: u16, line: u64) -> usize
    requires { line_bytes ≤ length out.old }
    ensures { Wrote out.old 0 (at_text place ++ refusal_text refusal line) out.new result }
{
    let mut text = Output { bytes: out, at: 0 };
    put_at(&mut text, place);
    text.put_refusal(refusal as u64, line);
    text.at
}

pub fn write_shares(out: &mut [u8], used: [u32; BOOKS], total: u32) -> usize
    requires { line_bytes ≤ length out.old }
    ensures { Wrote out.old 0 (shares_text total used) out.new result }
{
    let mut text = Output { bytes: out, at: 0 };
    put_shares(&mut text, used, total);
    text.at
}
