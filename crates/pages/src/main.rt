// The program `pages`: a book on standard input, all pages of its card on standard output.
#![tactic(auto)]

ghost use Rattle.qbf.specs.Formula.{capped};
ghost use Rattle.layout.specs.Program.{table_bytes};
ghost use Rattle.editions.specs.Opening.{both, open_editions};
ghost use Rattle.text_cards.specs.Making.{CardMade};

use answer_text::refused::write_refusal;
use cover::CardLines;
use opening::text::RefusedAt;
use page::Card;
use program::{CELLS, LITERALS};
use reader::call::TABLE;
use search_entry::workspace::Workspace;
use state::parts::Limits;
use std::io;
use text_cards::making::make_card;

// The card of the text, made on the program's own tables for a state, whatever stands in them.
// stays (form): the two tables of a state are lent one by one, since no clause says what a struct of loans ends as
fn make(
    text: &[u8],
    limits: Limits,
    cells: &mut [u16; CELLS],
    literals: &mut [i16; LITERALS],
    work: &mut Workspace,
    table: &mut [u8; TABLE],
) -> Result<CardLines, RefusedAt>
    ensures { CardMade
        table_bytes
        (open_editions both (capped limits.numbers limits.clauses) text.now)
        result
        table.new }
{
    make_card(text, limits, cells, literals, work, table)
}

fn print_refusal(
    rt: &impl Print,
    refused: RefusedAt,
    out: &mut [u8; page::lent::BYTES],
) -> io::Result<()> {
    let length = write_refusal(out, refused.refusal.number(), refused.line as u64);
    rt.write_all(&out[..length])
}

// One page after the other, each in the same table.
fn print_pages(
    rt: &impl Print,
    card: Card<'_>,
    out: &mut [u8; page::lent::BYTES],
) -> io::Result<()> {
    let last = page::pages(card.lines);
    for number in 1..=last {
        page::lent::page_into(out, card, number);
        rt.write_all(out)?;
    }
    Ok(())
}

// The tables stand before the arguments are read, as in `card`.
fn main(rt: HostRuntime) -> io::Result<()> {
    let mut room = [0u8; program::ROOM];
    let mut table = [tables::OPEN; TABLE];
    let mut out = [0u8; page::lent::BYTES];
    let mut cells = [0u16; CELLS];
    let mut literals = [0i16; LITERALS];
    let mut work = Workspace::ZEROS;
    let Some(limits) = arguments::limits(&rt, b"pages")? else {
        return Ok(());
    };
    let text = program::read(&rt, &mut room);
    let (cells, literals) = (&mut cells, &mut literals);
    match make(text, limits, cells, literals, &mut work, &mut table) {
        Ok(made) => {
            let card = Card {
                table: &table,
                lines: made.count,
                free: made.free,
            };
            print_pages(&rt, card, &mut out)
        }
        Err(refused) => print_refusal(&rt, refused, &mut out),
    }
}
