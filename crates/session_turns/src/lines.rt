// The calls behind the book, one to a line.
ghost use Rattle.std.specs.Prelude.{◌≤◌, ◌<◌, ◌+◌, length};
ghost use Rattle.session_turns.specs.Turns.{LineAnswered, LineEnded, LinesTurned};

use crate::{Session, Stage, over};
use answer_text::shown::Shown;
use buffered_lines::{Place, line_in};
use line_turns::At;
use reader::call::TABLE;
use search_entry::workspace::Workspace;
use session_lines::serve_line;

// A whole line, without its byte 10; one that is too long is no call, as an empty one is none.
// stays (no plainer): the line and where it stands, and the tables that are lent, of each of which is said what it ends as
fn answer_line(
    place: Place,
    shown: Shown,
    line: &[u8],
    cells: &mut [u16],
    literals: &mut [i16],
    work: &mut Workspace,
    cards: &mut [u8; TABLE],
    answer: &mut [u8],
) -> Session
    requires { place.at + length line.now < place.held }
    ensures { LineAnswered
        place
        shown
        line.now
        cells.old
        literals.old
        cards.old
        answer.old
        result
        cells.new
        literals.new
        cards.new
        answer.new }
{
    let at = At {
        number: place.number,
        shown,
    };
    let served = place.served(line);
    let spoken = serve_line(cells, literals, work, at, served, cards, answer);
    Session {
        stage: Stage::Calls(place.behind(line.len())),
        length: spoken.length,
        shown: spoken.shown,
    }
}

// The input has ended: a last line that is not ended is no call, as an empty one is none.
// stays (no plainer): where the line stands, and the tables that are lent, of each of which is said what it ends as
fn last_line(
    place: Place,
    shown: Shown,
    cells: &mut [u16],
    literals: &mut [i16],
    work: &mut Workspace,
    cards: &mut [u8; TABLE],
    answer: &mut [u8],
) -> Session
    ensures { LineEnded
        place
        shown
        cells.old
        literals.old
        cards.old
        answer.old
        result
        answer.new }
{
    if place.is_begun() {
        let at = At {
            number: place.number,
            shown,
        };
        let spoken = serve_line(cells, literals, work, at, b"", cards, answer);
        return over(spoken.length);
    }
    over(0)
}

// The first line of what is held; where it is not ended more is to be read, or it is the last one.
// stays (no plainer): what is held, what was read, and the tables that are lent, of each of which is said what it ends as
pub fn lines_turn(
    place: Place,
    shown: Shown,
    ended: bool,
    text: &mut [u8],
    cells: &mut [u16],
    literals: &mut [i16],
    work: &mut Workspace,
    cards: &mut [u8; TABLE],
    answer: &mut [u8],
) -> Session
    requires { (place.at ≤ place.held) × (place.held ≤ length text.old) }
    ensures { LinesTurned
        place
        shown
        ended
        text.old
        cells.old
        literals.old
        cards.old
        answer.old
        result
        text.new
        cells.new
        literals.new
        cards.new
        answer.new }
{
    match line_in(&text[..place.held][place.at..]) {
        Some(line) => answer_line(place, shown, line, cells, literals, work, cards, answer),
        None if ended => last_line(place, shown, cells, literals, work, cards, answer),
        None => {
            let place = place.refill(text);
            Session {
                stage: Stage::Calls(place),
                length: 0,
                shown,
            }
        }
    }
}
