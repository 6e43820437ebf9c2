// One line of a session on the two tables of a state: it is read and served, and its answer written into a lent table of at least as many bytes as `bullacetop_room`
// says; a shorter one is zeroed and refused with 31.
ghost use Rattle.std.specs.Prelude.{◌≡◌};
ghost use Rattle.answer_text.specs.Room.{answer_bytes};
ghost use Rattle.answer_text.specs.Shown.{no_card};
ghost use Rattle.session_lines.specs.Line.{ServesLineAt};

use answer_text::shown::Shown;
use line_turns::At;
use reader::call::TABLE;
use search_entry::workspace::Workspace;
use session_lines::Spoken;

#[unsafe(no_mangle)]
pub extern "C" fn bullacetop_room() -> usize
    ensures { result ≡ answer_bytes }
{
    book_calls::lines::bullacetop_room()
}

// No card has been answered yet: what a session begins with.
#[unsafe(no_mangle)]
pub extern "C" fn bullacetop_no_card() -> Shown
    ensures { result ≡ no_card }
{
    book_calls::lines::bullacetop_no_card()
}

// The line without its byte 10, its number in the input and the card answered last, whose lines stand in the lent table of cards.
// stays (C): the header declares these parameters
#[unsafe(no_mangle)]
pub extern "C" fn bullacetop_book_line(
    cells: &mut [u16],
    literals: &mut [i16],
    work: &mut Workspace,
    line: &[u8],
    number: u64,
    shown: Shown,
    cards: &mut [u8; TABLE],
    out: &mut [u8],
) -> Spoken
    ensures { ServesLineAt
        cells.old
        literals.old
        line.now
        number
        shown
        cards.old
        out.old
        result
        cells.new
        literals.new
        cards.new
        out.new }
{
    let at = At { number, shown };
    book_calls::lines::bullacetop_book_line(cells, literals, work, at, line, cards, out)
}
