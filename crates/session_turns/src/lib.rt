// The program `session` without its reads and writes, on a state where it lies, in two lent tables, under limits of its own: a turn on a lent buffer takes one line of
// what was read, or the book, says what is to be printed, and whether more has to be read first. Paper 01, "Text and program"; paper 02, wish 8.
#![tactic(auto)]

ghost use Rattle.std.specs.Prelude.{◌≡◌, ◌&&◌, eqb};
ghost use Rattle.qbf.specs.Formula.{capped};
ghost use Rattle.session_turns.specs.Stages.{waits_in, held_in};
ghost use Rattle.session_turns.specs.Turns.{Over, started, ReadBehind};
ghost use Rattle.session_turns.specs.Turned.{Turned, TurnedShort};

use answer_text::shown::{Shown, no_card};
use book::{text_turn, wait};
use buffered_lines::Place;
use lines::lines_turn;
use reader::call::TABLE;
use search_entry::workspace::Workspace;
use state::parts::Limits;

mod book; // the book
mod lines; // the lines behind it

#[derive(Clone, Copy)]
pub enum Stage {
    // in the book, which is read to its end first; so many bytes of it are held, from the buffer's start on
    Book(usize),
    // in the lines behind it
    Calls(Place),
    // after the last answer
    Over,
}

// What a session keeps between two turns beside the tables that it is lent: the last turn's answer has `length` bytes; the card answered last stands in its own table.
#[derive(Clone, Copy)]
pub struct Session {
    pub stage: Stage,
    pub length: usize,
    pub shown: Shown,
}

impl Stage {
    // More is to be read before the next turn.
    pub fn waits(self) -> bool
        ensures { result ≡ waits_in self }
    {
        match self {
            Stage::Book(_) => true,
            Stage::Calls(place) => place.line.waits(),
            Stage::Over => false,
        }
    }

    // None of what it waited for was read: the input has ended.
    fn ended(self, got: usize) -> bool
        ensures { result ≡ (waits_in self && eqb got 0) }
    {
        self.waits() && got == 0
    }

    // How many bytes of the buffer are held: more is read behind them.
    pub fn held(self) -> usize
        ensures { result ≡ held_in self }
    {
        match self {
            Stage::Book(held) => held,
            Stage::Calls(place) => place.held,
            Stage::Over => 0,
        }
    }
}

// One byte more than a text or a line may have.
pub const ROOM: usize = reader::text::TEXT + 1;

// Before the first byte of the input.
pub fn start() -> Session
    ensures { started result }
{
    wait(0)
}

// After the last answer.
fn over(length: usize) -> Session
    ensures { Over length result }
{
    let shown = no_card();
    Session {
        stage: Stage::Over,
        length,
        shown,
    }
}

// How many bytes are held once `got` more were read behind them, where the buffer has as many.
fn read_behind(held: usize, got: usize, room: usize) -> Option<usize>
    ensures { ReadBehind held got room result }
{
    if room < held || room - held < got {
        return None;
    }
    Some(held + got)
}

// Where the program waited, `got` bytes were read behind what it held, and none where the input has ended. A turn on a buffer that is not the
// program's ends it. The book is opened under the lesser of each limit and the highest; until then the tables of the state may hold anything.
// stays (no plainer): what the session keeps, what was read, and the five tables that it is lent, of which each is said what it ends as
pub fn turn(
    s: Session,
    got: usize,
    text: &mut [u8],
    limits: Limits,
    cells: &mut [u16],
    literals: &mut [i16],
    work: &mut Workspace,
    cards: &mut [u8; TABLE],
    answer: &mut [u8],
) -> Session
    ensures turned { Turned
        (capped limits.numbers limits.clauses)
        s
        got
        text.old
        cells.old
        literals.old
        cards.old
        answer.old
        result
        text.new
        cells.new
        literals.new
        cards.new
        answer.new }
    ensures short { TurnedShort
        (capped limits.numbers limits.clauses)
        s
        got
        text.old
        cells.old
        literals.old
        answer.old
        result
        cells.new
        literals.new
        answer.new }
{
    let ended = s.stage.ended(got);
    let Some(read) = read_behind(s.stage.held(), got, text.len()) else {
        return over(0);
    };
    match s.stage {
        Stage::Book(_) => {
            let full = read == text.len();
            let last = ended || full;
            text_turn(&text[..read], last, limits, cells, literals, answer)
        }
        Stage::Calls(place) => {
            if place.held < place.at {
                return over(0);
            }
            let place = Place {
                held: read,
                ..place
            };
            lines_turn(
                place, s.shown, ended, text, cells, literals, work, cards, answer,
            )
        }
        Stage::Over => over(0),
    }
}
