// What is printed: a text's card, as the program `card` prints it, and a page of a card. Both on lent tables: an array cannot be handed back to other languages.
ghost use Rattle.qbf.specs.Formula.{capped};
ghost use Rattle.page.specs.Lent.{PageLent};
ghost use Rattle.text_cards.specs.Printed.{PrintsCard};

use book_writer::Written;
use page::Card;
use page::lent::page_into;
use search_entry::workspace::Workspace;
use state::parts::Limits;
use text_cards::printing::print_card;

// The rows one after another in the first bytes of the lent table, and zeros behind them; refused, zeros alone. A refusal of 0 is none.
// stays (C): the header declares this number as what the export of this name answers
pub fn bullacetop_page(card: Card<'_>, number: usize, out: &mut [u8]) -> u16
    ensures { PageLent card.entry.table.now card.entry.lines card.entry.free number out.old result out.new }
{
    page_into(out, card, number)
}

// What the program `card` prints for a text under these limits.
// stays (C): the text with its limits, the two tables of a state, the workspace and the table of the answer, one after another, as the header declares them
pub fn bullacetop_book_print(
    text: &[u8],
    limits: Limits,
    cells: &mut [u16],
    literals: &mut [i16],
    work: &mut Workspace,
    out: &mut [u8],
) -> Written
    ensures { PrintsCard
        (capped limits.numbers limits.clauses)
        cells.old
        literals.old
        text.now
        out.old
        result
        out.new }
{
    print_card(text, limits, cells, literals, work, out)
}
