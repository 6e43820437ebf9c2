// The lines of a card or keep card, and a closest reading, at the start of the lent table.
ghost use Rattle.std.specs.Prelude.{◌≤◌, length};
ghost use Rattle.writer.specs.Rows.{card_rows, closest_row};
ghost use Rattle.answer_text.specs.Room.{answer_bytes};
ghost use Rattle.answer_text.specs.Answered.{Answered};

use crate::Answer;
use writer::Output;
use writer::answer::Closest;
use writer::card::Lines;

// The card, or the keep card where `yes` is false.
pub fn put_card(out: &mut Answer<'_>, yes: bool, lines: Lines<'_>, visits: u64) -> usize
    requires { length (card_rows yes lines.free lines.numbers.now lines.table.now lines.count visits) ≤ answer_bytes }
    ensures { Answered
        out.old
        (card_rows yes lines.entry.free lines.entry.numbers.now lines.entry.table.now lines.entry.count visits)
        out.new
        result }
{
    let bytes = &mut *out.bytes;
    let mut text = Output { bytes, at: 0 };
    text.put_card(yes, lines, visits);
    text.at
}

pub fn put_closest(out: &mut Answer<'_>, found: Closest<'_>) -> usize
    requires { length (closest_row found.numbers.now found.reading.now found.differs found.lines found.visits) ≤ answer_bytes }
    ensures { Answered
        out.old
        (closest_row found.entry.numbers.now found.entry.reading.now found.entry.differs found.entry.lines found.entry.visits)
        out.new
        result }
{
    let bytes = &mut *out.bytes;
    let mut text = Output { bytes, at: 0 };
    text.put_closest(found);
    text.at
}
