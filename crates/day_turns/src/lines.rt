// The first line, a place line and a call, one to a line.
ghost use Rattle.std.specs.Prelude.{◌≡◌, ◌≤◌, ◌<◌, ◌+◌, ◌-◌, length, get_or, set, true, false, List, ℕ, ℤ};
ghost use Rattle.layout.specs.Words.{Bytes};
ghost use Rattle.layout.specs.Forms.{then};
ghost use Rattle.day_text.specs.Lines.{total_of, place_of};
ghost use Rattle.day_writer.specs.Room.{line_bytes};
ghost use Rattle.buffered_lines.specs.Places.{skips, served_as};
ghost use Rattle.day_reader.specs.Read.{place_is};
ghost use Rattle.day_turns.specs.Turns.{free, FirstAnswered, PlaceAnswered, CallAnswered, LineAnswered, LastAnswered, LineWaits, LinesTurned};
ghost use Rattle.day_turns.specs.Tables.{tables, in_tables};

// stays (no plainer): `line_bytes ≤ length [u8]` is of a table that the day is lent whole; a type for it would be made for each of these calls, and taken off in each
// stays (no plainer): `Day.place.at ≤ Day.place.held` and `Day.place.held ≤ length [u8]` are asked once, by the turn; `Day.place.at + usize < Day.place.held` is of a line that was just found
use crate::told::refuse_line;
use crate::{Day, Skipping, Stage, over};
use answer_text::shown::no_card;
use buffered_lines::line_in;
use day_lines::{ANSWER, DayLine, Kept, serve_day_line};
use day_reader::place::{PlaceLine, is_place, read_place};
use day_reader::total::read_total;
use places::Accounts;
use reader::call::TABLE;
use search_entry::workspace::Workspace;
use shares::BOOKS;

// The total, or the end.
// stays (no plainer): `n` bytes were read of a line that is served as an empty one where it was too long: the next begins behind them
fn first_line(s: Day, line: &[u8], n: usize, kept: &mut Kept, answer: &mut [u8]) -> Day
    requires { (s.place.at + n < s.place.held) × (line_bytes ≤ length answer.old) }
    ensures { (cells : List ℕ) (literals : List ℤ) (cards : List Bytes) →
        FirstAnswered
        in_tables
        (total_of line.now)
        s
        n
        (tables kept.old cells literals cards)
        result
        (tables kept.new cells literals cards)
        answer.new }
{
    let Some(total) = read_total(line) else {
        return over(refuse_line(1, answer));
    };
    kept.accounts = Accounts {
        total,
        used: [0; BOOKS],
        books: [0; BOOKS],
    };
    kept.shown = [no_card(); BOOKS];
    Day {
        stage: Stage::Places,
        place: s.place.behind(n),
        length: 0,
        given: [false; BOOKS],
    }
}

fn is_given(given: [bool; BOOKS], place: usize) -> bool
    ensures { result ≡ get_or given (place - 1) false }
{
    let i = place.saturating_sub(1);
    i < BOOKS && given[i]
}

fn with_given(given: [bool; BOOKS], place: usize) -> [bool; BOOKS]
    ensures { result ≡ set given (place - 1) true }
{
    let mut all = given;
    let i = place.saturating_sub(1);
    if i < BOOKS {
        all[i] = true;
    }
    all
}

// A place that was not given before.
fn free_place(given: [bool; BOOKS], line: &[u8]) -> Option<PlaceLine>
    ensures { place_is result ≡ then (place_of line.now) (free given) }
{
    let t = read_place(line)?;
    if is_given(given, t.place) {
        None
    } else {
        Some(t)
    }
}

// A place line: its text follows, or is skipped.
// stays (no plainer): `n` beside `line` as for `first_line`
fn place_line(s: Day, line: &[u8], n: usize, answer: &mut [u8]) -> Day
    requires { (s.place.at + n < s.place.held) × (line_bytes ≤ length answer.old) }
    ensures { PlaceAnswered (then (place_of line.now) (free s.given)) s n result answer.new }
{
    let place = s.place.behind(n);
    match free_place(s.given, line) {
        Some(t) => {
            let given = with_given(s.given, t.place);
            Day {
                stage: Stage::Text(t),
                place,
                length: 0,
                given,
            }
        }
        None => Day {
            stage: Stage::Skip(Skipping {
                told: None,
                seen: 0,
            }),
            place,
            length: refuse_line(s.place.number, answer),
            ..s
        },
    }
}

// A line behind the loading.
// stays (no plainer): the line and how long it was, and the tables that the day is lent, of each of which is said what it ends as
fn call_line(
    s: Day,
    line: &[u8],
    n: usize,
    kept: &mut Kept,
    cells: &mut [u16],
    literals: &mut [i16],
    work: &mut Workspace,
    cards: &mut [[u8; TABLE]; BOOKS],
    answer: &mut [u8; ANSWER],
) -> Day
    requires { s.place.at + n < s.place.held }
    ensures { CallAnswered
        in_tables
        s
        n
        line.now
        (tables kept.old cells.old literals.old cards.old)
        result
        (tables kept.new cells.new literals.new cards.new)
        answer.new }
{
    let number = s.place.number;
    let line = DayLine {
        bytes: line,
        number,
    };
    let length = serve_day_line(kept, line, cells, literals, work, cards, answer);
    Day {
        stage: Stage::Calls,
        place: s.place.behind(n),
        length,
        ..s
    }
}

// A whole line, without its byte 10; one that is too long is none, as an empty one is none.
// stays (no plainer): the line, and the tables that the day is lent, of each of which is said what it ends as
fn answer_line(
    s: Day,
    line: &[u8],
    kept: &mut Kept,
    cells: &mut [u16],
    literals: &mut [i16],
    work: &mut Workspace,
    cards: &mut [[u8; TABLE]; BOOKS],
    answer: &mut [u8; ANSWER],
) -> Day
    requires { s.place.at + length line.now < s.place.held }
    ensures { LineAnswered
        in_tables
        s.stage
        s
        (length line.now)
        (served_as (skips s.place.line) line.now)
        (tables kept.old cells.old literals.old cards.old)
        result
        (tables kept.new cells.new literals.new cards.new)
        answer.new }
{
    let n = line.len();
    let served = s.place.served(line);
    match s.stage {
        Stage::First => first_line(s, served, n, kept, answer),
        Stage::Places => {
            if is_place(served) {
                return place_line(s, served, n, answer);
            }
            call_line(s, served, n, kept, cells, literals, work, cards, answer)
        }
        Stage::Text(_) | Stage::Skip(_) | Stage::Calls | Stage::Over => call_line(
            s, served, n, kept, cells, literals, work, cards, answer,
        ),
    }
}

// The input has ended: before a first line, or a last line that is not ended is 1.
fn last_line(s: Day, answer: &mut [u8]) -> Day
    requires { line_bytes ≤ length answer.old }
    ensures { LastAnswered s.stage s result answer.new }
{
    if let Stage::First = s.stage {
        return over(refuse_line(1, answer));
    }
    if s.place.is_begun() {
        return over(refuse_line(s.place.number, answer));
    }
    over(0)
}

// More is to be read behind what is held of a line, or of a text.
pub fn wait_line(s: Day, text: &mut [u8]) -> Day
    requires { (s.place.at ≤ s.place.held) × (s.place.held ≤ length text.old) }
    ensures { LineWaits s text.old result text.new }
{
    let place = s.place.refill(text);
    Day {
        place,
        length: 0,
        ..s
    }
}

// The first line of what is held; where it is not ended more is to be read, or it is the last one.
// stays (no plainer): what is held, what was read, and the tables that the day is lent, of each of which is said what it ends as; a `Place` with its buffer would be a type
// of a loan, made anew for each turn
pub fn lines_turn(
    s: Day,
    ended: bool,
    text: &mut [u8],
    kept: &mut Kept,
    cells: &mut [u16],
    literals: &mut [i16],
    work: &mut Workspace,
    cards: &mut [[u8; TABLE]; BOOKS],
    answer: &mut [u8; ANSWER],
) -> Day
    requires { (s.place.at ≤ s.place.held) × (s.place.held ≤ length text.old) }
    ensures { LinesTurned
        in_tables
        ended
        s
        text.old
        (tables kept.old cells.old literals.old cards.old)
        result
        text.new
        (tables kept.new cells.new literals.new cards.new)
        answer.new }
{
    match line_in(&text[..s.place.held][s.place.at..]) {
        Some(line) => answer_line(s, line, kept, cells, literals, work, cards, answer),
        None if ended => last_line(s, answer),
        None => wait_line(s, text),
    }
}
