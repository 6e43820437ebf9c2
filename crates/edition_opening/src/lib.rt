// Opening a text of either edition onto the two lent tables of a state, under limits of its own. Paper 02, wishes 8, 10 and 13.
#![tactic(auto)]

ghost use Rattle.std.specs.Prelude.{◌≡◌};
ghost use Rattle.qbf.specs.Formula.{capped};
ghost use Rattle.editions.specs.Opening.{open_editions};
ghost use Rattle.edition_opening.specs.Editions.{accepted, number_of, EditionRead};
ghost use Rattle.opening.specs.Opened.{OpenedAt};

mod book;
pub mod rule;

use book::EditionBook;
use edition_reader::Edition;
use opening::TOO_SHORT;
use opening::prepared::{closed, prepare};
use opening::text::{RefusedAt, read_text};
use refusal::Refusal;
use state::parts::Limits;

// The editions that a reader takes.
#[derive(Clone, Copy)]
pub enum Editions {
    First,
    Second,
    Both,
}

impl Editions {
    // "A reader of edition 1 given edition 2 .. gives 2"; "The new reader .. reads both"
    fn takes(self, edition: Edition) -> bool
        ensures { result ≡ accepted self (number_of edition) }
    {
        match self {
            Editions::First => edition == Edition::First,
            Editions::Second => edition == Edition::Second,
            Editions::Both => true,
        }
    }

    // .. by its number
    pub fn edition(self, number: usize) -> Result<Edition, Refusal>
        ensures { EditionRead (accepted self) number result }
    {
        let edition = match number {
            1 => Edition::First,
            2 => Edition::Second,
            _ => return Err(Refusal::Edition),
        };
        if self.takes(edition) {
            Ok(edition)
        } else {
            Err(Refusal::Edition)
        }
    }
}

// Where the text is refused what stands in the tables is malformed.
pub fn open(
    accepts: Editions,
    text: &[u8],
    limits: Limits,
    cells: &mut [u16],
    literals: &mut [i16],
) -> Result<(), RefusedAt>
    ensures { OpenedAt
        (capped limits.numbers limits.clauses)
        (open_editions (accepted accepts) (capped limits.numbers limits.clauses) text.now)
        cells.old
        literals.old
        result
        cells.new
        literals.new }
{
    let Some(layout) = prepare(limits, cells, literals) else {
        return Err(TOO_SHORT);
    };
    let read = read_text(EditionBook::first(accepts, layout), text, cells, literals);
    closed(cells, read)
}
