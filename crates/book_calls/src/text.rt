// A text opened onto the two tables of a state, under limits of its own; a state's book written as text; and a text converted from one edition into the
// other.
ghost use Rattle.std.specs.Prelude.{length};
ghost use Rattle.qbf.specs.Formula.{capped};
ghost use Rattle.editions.specs.Opening.{both, open_editions};
ghost use Rattle.qdimacs_form.specs.Opening.{open_qdimacs};
ghost use Rattle.book_writer.specs.Writes.{WritesAt};
ghost use Rattle.edition_conversion.specs.Converting.{TaggedUnder, UntaggedUnder};
ghost use Rattle.book_calls.specs.Opened.{OpenedIn, ToldOf};

use book_writer::Written;
use book_writer::at::write_at;
use edition_conversion::Converted;
use edition_opening::{Editions, open};
use opening::NONE;
use opening::text::{NO_LINE, RefusedAt};
use state::parts::Limits;

// A refusal of 0 is none, and then there is no line; 9 and 22 have no line either.
// stays (C): other languages read the number of the refusal, 0 for none, and the line beside it
#[repr(C)]
#[derive(Clone, Copy)]
pub struct Opened {
    pub refusal: u16,
    pub line: usize,
}

impl From<Result<(), RefusedAt>> for Opened {
    ghost from_gives = { ToldOf };

    fn from(read: Result<(), RefusedAt>) -> Opened {
        match read {
            Ok(_) => Opened {
                refusal: NONE,
                line: NO_LINE,
            },
            Err(refused) => Opened {
                refusal: refused.refusal.number(),
                line: refused.line,
            },
        }
    }
}

// A text of edition 1 or 2. Where it is refused what stands in the tables is malformed.
pub fn bullacetop_book_open(
    text: &[u8],
    limits: Limits,
    cells: &mut [u16],
    literals: &mut [i16],
) -> Opened
    ensures { OpenedIn
        (capped limits.numbers limits.clauses)
        (open_editions both (capped limits.numbers limits.clauses) text.now)
        cells.old
        literals.old
        result
        cells.new
        literals.new }
{
    let read = open(Editions::Both, text, limits, cells, literals);
    Opened::from(read)
}

// A QDIMACS text likewise, to the state that our own text would give.
pub fn bullacetop_book_open_qdimacs(
    text: &[u8],
    limits: Limits,
    cells: &mut [u16],
    literals: &mut [i16],
) -> Opened
    ensures { OpenedIn
        (capped limits.numbers limits.clauses)
        (open_qdimacs (capped limits.numbers limits.clauses) text.now)
        cells.old
        literals.old
        result
        cells.new
        literals.new }
{
    let read = qdimacs_opening::open(text, limits, cells, literals);
    Opened::from(read)
}

// The book's text. Nothing of the state is written.
pub fn bullacetop_book_write(cells: &[u16], literals: &[i16], table: &mut [u8]) -> Written
    ensures { WritesAt cells.now literals.now (length table.old) result.refusal result.length table.new }
{
    let written = write_at(cells, literals, table);
    written
}

// A text of edition 1 in edition 2: its rule forms are tagged 1, 2, 3 and so on. It is judged onto the two tables, which have the book then, or are malformed.
// stays (C): one function for each export; this and `bullacetop_book_untag` are one call each
pub fn bullacetop_book_tag(
    text: &[u8],
    limits: Limits,
    cells: &mut [u16],
    literals: &mut [i16],
    table: &mut [u8],
) -> Converted
    ensures { TaggedUnder
        (capped limits.numbers limits.clauses)
        cells.old
        literals.old
        text.now
        (length table.old)
        result
        table.new }
{
    edition_conversion::tag(text, limits, cells, literals, table)
}

// A text of edition 2 in edition 1, where its tags are those.
// stays (C): one function for each export, as `bullacetop_book_tag`
pub fn bullacetop_book_untag(
    text: &[u8],
    limits: Limits,
    cells: &mut [u16],
    literals: &mut [i16],
    table: &mut [u8],
) -> Converted
    ensures { UntaggedUnder
        (capped limits.numbers limits.clauses)
        cells.old
        literals.old
        text.now
        (length table.old)
        result
        table.new }
{
    edition_conversion::untag(text, limits, cells, literals, table)
}
