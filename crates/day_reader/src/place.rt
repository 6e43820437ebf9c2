// A place line: `(place 1)`, or `(place 1 1000 4000)` with the limits for numbers and rules under which the book of this place is opened.
ghost use Rattle.std.specs.Prelude.{◌≡◌};
ghost use Rattle.qbf.specs.Formula.{Limits as limits};
ghost use Rattle.layout.specs.Words.{space, split};
ghost use Rattle.arguments.specs.Read.{given};
ghost use Rattle.day_text.specs.Lines.{of_keyword, is_place, place_items, place_of};
ghost use Rattle.reader.specs.Pieces.{pieces};
ghost use Rattle.day_reader.specs.Read.{place_is};
ghost use Rattle.day_reader.specs.Limits.{limit_items, placed_in};

use reader::brackets::inside;
use reader::number::read_number;
use reader::word::{SPACE, cut, same_word};
use shares::BOOKS;
use state::parts::Limits;

// A place from 1 to 8, and the limits of its book.
#[derive(Clone, Copy)]
pub struct PlaceLine {
    pub place: usize,
    pub limits: Limits,
}

// A keyword has small letters and hyphens.
fn of_keyword(b: u8) -> bool
    ensures { result ≡ of_keyword b }
{
    b.is_ascii_lowercase() || b == b'-'
}

// Whether a line is a place's, by its keyword and whatever follows: "the first line that is no (place ..) ends the loading".
pub fn is_place(l: &[u8]) -> bool
    ensures { result ≡ is_place l.now }
{
    match l.strip_prefix(b"(place") {
        Some([b, ..]) => !of_keyword(*b),
        Some([]) => true,
        None => false,
    }
}

// Two numbers, and nothing behind them.
fn two_limits(words: &[u8]) -> Option<Limits>
    ensures { given result ≡ limit_items (split space words.now) }
{
    let (numbers, left) = cut(words, SPACE);
    let (clauses, more) = cut(left?, SPACE);
    match more {
        Some(_) => None,
        None => Some(Limits {
            numbers: read_number(numbers)? as usize,
            clauses: read_number(clauses)? as usize,
        }),
    }
}

// .. or none: the limits are the paper's.
fn limits(left: Option<&[u8]>) -> Option<Limits>
    ensures { given result ≡ limit_items (pieces space left.entry) }
{
    match left {
        Some(words) => two_limits(words),
        None => Some(arguments::PAPER),
    }
}

// "in places 1 to 8"
fn placed(place: usize, limits: Limits) -> Option<PlaceLine>
    ensures { place_is result ≡ placed_in place limits }
{
    (1..=BOOKS)
        .contains(&place)
        .then_some(PlaceLine { place, limits })
}

fn read_items(words: &[u8]) -> Option<PlaceLine>
    ensures { place_is result ≡ place_items (split space words.now) }
{
    let (word, left) = cut(words, SPACE);
    let place = read_number(word)? as usize;
    placed(place, limits(left)?)
}

// stays (no plainer): `read_at` reads other items behind another word; one function of both would take the word and, as a closure, what reads the items, for two calls.
pub fn read_place(l: &[u8]) -> Option<PlaceLine>
    ensures { place_is result ≡ place_of l.now }
{
    let (word, left) = cut(inside(l)?, SPACE);
    if same_word(word, b"place") {
        return read_items(left?);
    }
    None
}
