// The program `day` without its reads and writes: a turn on a lent buffer takes one line of what was read, or a text, or what is skipped of one, says what is to be
// printed, and whether more has to be read first. Paper 02, wish 12.
#![tactic(auto)]

ghost use Rattle.std.specs.Prelude.{◌≡◌, ◌&&◌, ◌≤◌, ◌+◌, eqb, length};
ghost use Rattle.buffered_lines.specs.Places.{waits};
ghost use Rattle.day_turns.specs.Turns.{Started, Over, ReadBehind};
ghost use Rattle.day_turns.specs.Turned.{Turned};
ghost use Rattle.day_turns.specs.Tables.{tables, in_tables, Unloaded};

use answer_text::shown::no_card;
use buffered_lines::{Line, Place};
use day_lines::{ANSWER, Kept};
use day_reader::place::PlaceLine;
use lines::lines_turn;
use places::{Accounts, Rooms};
use reader::call::TABLE;
use search_entry::workspace::Workspace;
use shares::BOOKS;
use skip::skip_turn;
use text::text_turn;

mod told; // what is printed of a text, and of a line that is 1
mod lines; // the lines
mod skip; // a text that is skipped
mod text; // the text of a place

// Of a text that is skipped: whose it is, where it is told as 9 at its end; and how many bytes of its last line so far are those of the line `(end)`.
#[derive(Clone, Copy)]
pub struct Skipping {
    pub told: Option<PlaceLine>,
    pub seen: usize,
}

#[derive(Clone, Copy)]
pub enum Stage {
    // before the first line
    First,
    // before a place line
    Places,
    // in the text of a place, which is read to its end first
    Text(PlaceLine),
    // in a text that is skipped: too long, or behind a refused place line
    Skip(Skipping),
    // before a call
    Calls,
    // after the last answer
    Over,
}

// What a day keeps between two turns beside the tables that it is lent: where the next line, or a text, stands in the buffer; how many bytes the last turn's answer
// has; and which places were given.
#[derive(Clone, Copy)]
pub struct Day {
    pub stage: Stage,
    pub place: Place,
    pub length: usize,
    pub given: [bool; BOOKS],
}

impl Day {
    // More is to be read before the next turn.
    pub fn waits(self) -> bool
        ensures { result ≡ waits self.place.line }
    {
        self.place.line.waits()
    }

    // None of what it waited for was read: the input has ended.
    fn ended(self, got: usize) -> bool
        ensures { result ≡ (waits self.place.line && eqb got 0) }
    {
        self.waits() && got == 0
    }
}

// After the last answer.
fn over(length: usize) -> Day
    ensures { Over length result }
{
    Day {
        stage: Stage::Over,
        place: Place {
            line: Line::Next,
            at: 0,
            held: 0,
            number: 0,
        },
        length,
        given: [false; BOOKS],
    }
}

// How many bytes are held once `got` more were read behind them, where the buffer has as many.
fn read_behind(held: usize, got: usize, room: usize) -> Option<usize>
    ensures { ReadBehind held got room result }
{
    if room < held || room - held < got {
        return None;
    }
    Some(held + got)
}

// One byte more than a text or a line may have.
pub const ROOM: usize = reader::text::TEXT + 1;

// The cells and the literals of eight books under any limits.
pub const CELLS: usize = lent_texts::CELLS * BOOKS;

pub const LITERALS: usize = lent_texts::LITERALS * BOOKS;

// Before anything is loaded, with room at each place for a book under any limits.
pub fn unloaded() -> Kept
    ensures { Unloaded result }
{
    Kept {
        rooms: Rooms {
            cells: [lent_texts::CELLS; BOOKS],
            literals: [lent_texts::LITERALS; BOOKS],
        },
        accounts: Accounts {
            total: 0,
            used: [0; BOOKS],
            books: [0; BOOKS],
        },
        shown: [no_card(); BOOKS],
    }
}

// Before the first byte of the input.
pub fn start() -> Day
    ensures { Started result }
{
    Day {
        stage: Stage::First,
        place: Place {
            line: Line::Begun,
            at: 0,
            held: 0,
            number: 1,
        },
        length: 0,
        given: [false; BOOKS],
    }
}

// Where the program waited, `got` bytes were read behind what it held, and none where the input has ended. A turn on a buffer that is not the program's ends it. Until
// the first line is read what is kept beside the rooms of the places may be anything, and so may what stands in the tables.
// stays (no plainer): what the day keeps, what was read, and the tables that it is lent, of which each is said what it ends as
pub fn turn(
    s: Day,
    got: usize,
    text: &mut [u8],
    kept: &mut Kept,
    cells: &mut [u16],
    literals: &mut [i16],
    work: &mut Workspace,
    cards: &mut [[u8; TABLE]; BOOKS],
    answer: &mut [u8; ANSWER],
) -> Day
    ensures { Turned
        in_tables
        ANSWER
        s
        got
        text.old
        (tables kept.old cells.old literals.old cards.old)
        answer.old
        result
        text.new
        (tables kept.new cells.new literals.new cards.new)
        answer.new }
{
    let ended = s.ended(got);
    let Some(held) = read_behind(s.place.held, got, text.len()) else {
        return over(0);
    };
    if s.place.held < s.place.at {
        return over(0);
    }
    let place = Place { held, ..s.place };
    let s = Day { place, ..s };
    match s.stage {
        Stage::First | Stage::Places | Stage::Calls => lines_turn(
            s, ended, text, kept, cells, literals, work, cards, answer,
        ),
        Stage::Text(t) => text_turn(s, t, ended, text, kept, cells, literals, answer),
        Stage::Skip(k) => skip_turn(s, k, ended, &text[..held][place.at..], kept, answer),
        Stage::Over => over(0),
    }
}
