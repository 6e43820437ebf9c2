// What is printed: a text's card, as the program `card` prints it, and a page of a card. Both on lent tables: an array cannot be handed back to other languages.
ghost use Rattle.qbf.specs.Formula.{capped};
ghost use Rattle.page.specs.Lent.{PageLent};
ghost use Rattle.text_cards.specs.Printed.{PrintsCard};

use book_writer::Written;
use page::Card;
use search_entry::workspace::Workspace;
use state::parts::Limits;

// The rows one after another in the first bytes of the lent table, and zeros behind them; refused, zeros alone. A refusal of 0 is none.
// stays (C): the header declares the table, the counts of its lines and flags, and a number for the refusal
#[unsafe(no_mangle)]
pub extern "C" fn bullacetop_page(
    table: &[u8],
    lines: usize,
    flags: usize,
    number: usize,
    out: &mut [u8],
) -> u16
    ensures { PageLent table.now lines flags number out.old result out.new }
{
    let card = Card {
        table,
        lines,
        free: flags,
    };
    book_calls::print::bullacetop_page(card, number, out)
}

// What the program `card` prints for a text under these limits.
// stays (C): the header declares these parameters
#[unsafe(no_mangle)]
pub extern "C" fn bullacetop_book_print(
    text: &[u8],
    numbers: usize,
    rules: usize,
    cells: &mut [u16],
    literals: &mut [i16],
    work: &mut Workspace,
    out: &mut [u8],
) -> Written
    ensures { PrintsCard
        (capped numbers rules)
        cells.old
        literals.old
        text.now
        out.old
        result
        out.new }
{
    let limits = Limits {
        numbers,
        clauses: rules,
    };
    book_calls::print::bullacetop_book_print(text, limits, cells, literals, work, out)
}
