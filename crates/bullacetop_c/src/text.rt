// A text opened onto the two tables of a state, under limits of its own; a state's book written as text; and a text converted from one edition into the
// other.
ghost use Rattle.std.specs.Prelude.{◌≡◌, length};
ghost use Rattle.qbf.specs.Formula.{capped};
ghost use Rattle.editions.specs.Opening.{both, open_editions};
ghost use Rattle.qdimacs_form.specs.Opening.{open_qdimacs};
ghost use Rattle.book_writer.specs.Writes.{WritesAt};
ghost use Rattle.edition_conversion.specs.Converting.{TaggedUnder, UntaggedUnder};
ghost use Rattle.book_calls.specs.Opened.{OpenedIn};

use book_calls::text::Opened;
use book_writer::Written;
use edition_conversion::Converted;
use state::parts::Limits;

// As C has them: the limit for rules is that for clauses.
fn limits_of(numbers: usize, rules: usize) -> Limits
    ensures { result ≡ record { numbers = numbers; clauses = rules } }
{
    Limits {
        numbers,
        clauses: rules,
    }
}

// A text of edition 1 or 2. Where it is refused what stands in the tables is malformed.
#[unsafe(no_mangle)]
pub extern "C" fn bullacetop_book_open(
    text: &[u8],
    numbers: usize,
    rules: usize,
    cells: &mut [u16],
    literals: &mut [i16],
) -> Opened
    ensures { OpenedIn
        (capped numbers rules)
        (open_editions both (capped numbers rules) text.now)
        cells.old
        literals.old
        result
        cells.new
        literals.new }
{
    let limits = limits_of(numbers, rules);
    book_calls::text::bullacetop_book_open(text, limits, cells, literals)
}

// A QDIMACS text likewise, to the state that our own text would give.
#[unsafe(no_mangle)]
pub extern "C" fn bullacetop_book_open_qdimacs(
    text: &[u8],
    numbers: usize,
    rules: usize,
    cells: &mut [u16],
    literals: &mut [i16],
) -> Opened
    ensures { OpenedIn
        (capped numbers rules)
        (open_qdimacs (capped numbers rules) text.now)
        cells.old
        literals.old
        result
        cells.new
        literals.new }
{
    let limits = limits_of(numbers, rules);
    book_calls::text::bullacetop_book_open_qdimacs(text, limits, cells, literals)
}

// The book's text. Nothing of the state is written.
#[unsafe(no_mangle)]
pub extern "C" fn bullacetop_book_write(
    cells: &[u16],
    literals: &[i16],
    table: &mut [u8],
) -> Written
    ensures { WritesAt cells.now literals.now (length table.old) result.refusal result.length table.new }
{
    book_calls::text::bullacetop_book_write(cells, literals, table)
}

// A text of edition 1 in edition 2: its rule forms are tagged 1, 2, 3 and so on.
// stays (C): the header declares these parameters
#[unsafe(no_mangle)]
pub extern "C" fn bullacetop_book_tag(
    text: &[u8],
    numbers: usize,
    rules: usize,
    cells: &mut [u16],
    literals: &mut [i16],
    table: &mut [u8],
) -> Converted
    ensures { TaggedUnder
        (capped numbers rules)
        cells.old
        literals.old
        text.now
        (length table.old)
        result
        table.new }
{
    let limits = limits_of(numbers, rules);
    book_calls::text::bullacetop_book_tag(text, limits, cells, literals, table)
}

// A text of edition 2 in edition 1, where its tags are those.
// stays (C): the header declares these parameters
#[unsafe(no_mangle)]
pub extern "C" fn bullacetop_book_untag(
    text: &[u8],
    numbers: usize,
    rules: usize,
    cells: &mut [u16],
    literals: &mut [i16],
    table: &mut [u8],
) -> Converted
    ensures { UntaggedUnder
        (capped numbers rules)
        cells.old
        literals.old
        text.now
        (length table.old)
        result
        table.new }
{
    let limits = limits_of(numbers, rules);
    book_calls::text::bullacetop_book_untag(text, limits, cells, literals, table)
}
