// What is printed of a text, and of a line that is 1.
ghost use Rattle.std.specs.Prelude.{◌≤◌, ◌++◌, length};
ghost use Rattle.layout.specs.Output.{refusal_text};
ghost use Rattle.writer.specs.Wrote.{Wrote};
ghost use Rattle.day_text.specs.Output.{at_text};
ghost use Rattle.day_writer.specs.Room.{line_bytes};
ghost use Rattle.day_turns.specs.Turns.{text_told, skipped_text};

// stays (no plainer): `line_bytes ≤ length [u8]` is of a table that the day is lent whole; a type for it would be made for each of these calls, and taken off in each
use day_reader::place::PlaceLine;
use day_writer::lines::{write_opened, write_refused};
use opening::text::RefusedAt;
use refusal::Refusal;
use writer::Output;

// A line that is 1 alone.
#[tactic(auto, using(day_writer::proofs::Rooms::refusal_room))]
pub fn refuse_line(line: u64, answer: &mut [u8]) -> usize
    requires { line_bytes ≤ length answer.old }
    ensures { Wrote answer.old 0 (refusal_text 1 line) answer.new result }
{
    let mut text = Output {
        bytes: answer,
        at: 0,
    };
    text.put_refusal(Refusal::NotInLayout.number() as u64, line);
    text.at
}

// A text was opened at a place, or refused.
pub fn tell_text(place: usize, opened: Result<(), RefusedAt>, answer: &mut [u8]) -> usize
    requires { line_bytes ≤ length answer.old }
    ensures { Wrote answer.old 0 (at_text place ++ text_told opened) answer.new result }
{
    match opened {
        Ok(()) => write_opened(answer, place as u64),
        Err(at) => write_refused(answer, place as u64, at.refusal.number(), at.line as u64),
    }
}

// The end of a text that was skipped: one that is too long is 9, and behind a refused place line nothing is told.
pub fn tell_skipped(told: Option<PlaceLine>, answer: &mut [u8]) -> usize
    requires { line_bytes ≤ length answer.old }
    ensures { Wrote answer.old 0 (skipped_text told) answer.new result }
{
    match told {
        Some(p) => write_refused(answer, p.place as u64, Refusal::TextTooLong.number(), 0),
        None => 0,
    }
}
