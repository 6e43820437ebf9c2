// One line of a session on the two tables of a state: it is read and served, and its answer written into a lent table of at least as many bytes as `bullacetop_room`
// says; a shorter one is zeroed and refused with 31.
ghost use Rattle.std.specs.Prelude.{◌≡◌};
ghost use Rattle.answer_text.specs.Room.{answer_bytes};
ghost use Rattle.answer_text.specs.Shown.{no_card};
ghost use Rattle.session_lines.specs.Line.{ServesLineAt};

use answer_text::shown::Shown;
use line_turns::At;
use reader::call::TABLE;
use search_entry::workspace::Workspace;
use session_lines::{Spoken, serve_line};

pub fn bullacetop_room() -> usize
    ensures { result ≡ answer_bytes }
{
    answer_text::ANSWER
}

// No card has been answered yet: what a session begins with.
pub fn bullacetop_no_card() -> Shown
    ensures { result ≡ no_card }
{
    answer_text::shown::no_card()
}

// The line without its byte 10, its number in the input and the card answered last, whose lines stand in the lent table of cards.
// stays (C): the two tables of a state, the workspace and what a line is lent, one after another, as the header declares them
pub fn bullacetop_book_line(
    cells: &mut [u16],
    literals: &mut [i16],
    work: &mut Workspace,
    at: At,
    line: &[u8],
    cards: &mut [u8; TABLE],
    out: &mut [u8],
) -> Spoken
    ensures { ServesLineAt
        cells.old
        literals.old
        line.now
        at.number
        at.shown
        cards.old
        out.old
        result
        cells.new
        literals.new
        cards.new
        out.new }
{
    serve_line(cells, literals, work, at, line, cards, out)
}
