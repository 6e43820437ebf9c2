// A text's card, made in a lent table for its pages to be printed.
ghost use Rattle.std.specs.Prelude.{◌≡◌, true, length};
ghost use Rattle.std.proofs.Math.Option.{some};
ghost use Rattle.qbf.specs.Formula.{Formula, capped};
ghost use Rattle.qbf.specs.Calls.{formula_is_ok};
ghost use Rattle.qbf.specs.Runs.{fresh};
ghost use Rattle.layout.specs.Opening.{opened};
ghost use Rattle.state_parts.specs.Parts.{read_at};
ghost use Rattle.text_cards.specs.Making.{CardMade, MakesCard};

use card_answers::names::names_at;
use cover::CardLines;
use edition_opening::{Editions, open};
use opening::text::{NO_LINE, RefusedAt};
use search_entry::workspace::Workspace;
use state::parts::Limits;

// The card of a state with an empty store; its refusal has no line.
fn card_of(
    cells: &mut [u16],
    literals: &mut [i16],
    work: &mut Workspace,
    table: &mut [u8],
) -> Result<CardLines, RefusedAt>
    ensures { (b : Formula)
        → read_at cells.old literals.old ≡ some (fresh b)
        → formula_is_ok b ≡ true
        → CardMade (length table.old) (opened b) result table.new }
{
    let listed = search_calls::card_of(cells, literals, work, table, true, tables::HIGHEST_CEILING);
    let names = names_at(cells);
    match listed.lines {
        Ok(lines) => Ok(CardLines {
            count: lines,
            free: names.free,
        }),
        Err(refusal) => Err(RefusedAt {
            refusal,
            line: NO_LINE,
        }),
    }
}

// The table is zero where the text or its card is refused.
// stays (form): the two tables of a state are lent one by one, since no clause says what a struct of loans ends as
pub fn make_card(
    text: &[u8],
    limits: Limits,
    cells: &mut [u16],
    literals: &mut [i16],
    work: &mut Workspace,
    table: &mut [u8],
) -> Result<CardLines, RefusedAt>
    ensures { MakesCard
        (capped limits.numbers limits.clauses)
        cells.old
        literals.old
        text.now
        (length table.old)
        result
        table.new }
{
    match open(Editions::Both, text, limits, cells, literals) {
        Ok(()) => card_of(cells, literals, work, table),
        Err(refused) => {
            cover::clear(table);
            Err(refused)
        }
    }
}
