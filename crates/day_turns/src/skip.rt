// A text that is skipped: nothing of it is held.
ghost use Rattle.std.specs.Prelude.{◌≡◌, ◌≤◌, ◌+◌, length, List, ℕ, ℤ};
ghost use Rattle.layout.specs.Words.{Bytes};
ghost use Rattle.day_writer.specs.Room.{line_bytes};
ghost use Rattle.day_turns.specs.Turns.{counted, SkipsFrom, SkipTurned};
ghost use Rattle.day_turns.specs.Tables.{tables, in_tables};

// stays (no plainer): `line_bytes ≤ length [u8]` is of a table that the day is lent whole; a type for it would be made for each of these calls, and taken off in each
use crate::text::mark;
use crate::told::tell_skipped;
use crate::{Day, Skipping, Stage, over};
use buffered_lines::{Line, Place};
use day_lines::Kept;
use day_reader::place::PlaceLine;
use reader::text::line_count;
use text_skip::{Skipped, skip};

// The number of the line behind so many bytes of the text.
pub fn behind(number: u64, text: &[u8]) -> u64
    ensures { result ≡ counted number text.now }
{
    number.saturating_add(line_count(text) as u64)
}

// The end of what is skipped: a place whose text is too long is without a book.
fn leave(told: Option<PlaceLine>, kept: &mut Kept)
    ensures { (cells : List ℕ) (literals : List ℤ) (cards : List Bytes) →
        SkipsFrom
        in_tables
        told
        (tables kept.old cells literals cards)
        (tables kept.new cells literals cards) }
{
    if let Some(t) = told {
        mark(kept, t.place, false);
    }
}

// The text ends among the bytes, or they are all of it.
// stays (no plainer): what is held, what is skipped, and what the day keeps and prints, of which is said what it ends as
pub fn skip_turn(
    s: Day,
    k: Skipping,
    ended: bool,
    text: &[u8],
    kept: &mut Kept,
    answer: &mut [u8],
) -> Day
    requires { (s.place.at + length text.now ≤ s.place.held) × (line_bytes ≤ length answer.old) }
    ensures { (cells : List ℕ) (literals : List ℤ) (cards : List Bytes) →
        SkipTurned
        in_tables
        ended
        k
        s
        text.now
        (tables kept.old cells literals cards)
        result
        (tables kept.new cells literals cards)
        answer.new }
{
    match skip(text, k.seen) {
        Skipped::Ended(end) => {
            let skipped = &text[..end];
            leave(k.told, kept);
            Day {
                stage: Stage::Places,
                place: Place {
                    line: Line::Next,
                    at: s.place.at + skipped.len(),
                    held: s.place.held,
                    number: behind(s.place.number, skipped),
                },
                length: tell_skipped(k.told, answer),
                ..s
            }
        }
        Skipped::Inside(_) if ended => over(tell_skipped(k.told, answer)),
        Skipped::Inside(seen) => Day {
            stage: Stage::Skip(Skipping { told: k.told, seen }),
            place: Place {
                line: Line::Begun,
                at: 0,
                held: 0,
                number: behind(s.place.number, text),
            },
            length: 0,
            ..s
        },
    }
}
