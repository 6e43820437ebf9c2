// The text of an answer that is no card, in a lent table that holds every answer; and the card answered last, as a session holds it.
#![tactic(auto)]

ghost use Rattle.std.specs.Prelude.{◌≤◌, length};
ghost use Rattle.answer_text.specs.Room.{answer_bytes};

pub mod book; // a refused text, and a table too short
pub mod card; // its lines, and a closest reading
pub mod change; // rule, withdraw, forget
pub mod query;
pub mod refused;
pub mod shown; // the card answered last

// No answer is longer: all lines of a card together have no more places than its table has bytes. A line has up to 10 bytes for each of
// its places, numbers of four digits, and 7 more, what is no line up to 50. Under the highest limits a book's text has at most book_writer::longest::HIGHEST_LONGEST.
pub const ANSWER: usize = 17 * reader::call::TABLE + 50;

// A lent table that holds every answer.
#[derive(Drop)]
pub struct Answer<'a> {
    pub bytes: &'a mut [u8],
    pub ghost room: { answer_bytes ≤ length bytes.now },
}
