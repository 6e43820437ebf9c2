// The program `card`: a book on standard input, its card on standard output.
#![tactic(auto)]

ghost use Rattle.qbf.specs.Formula.{capped};
ghost use Rattle.layout.specs.Program.{table_bytes};
ghost use Rattle.editions.specs.Program.{card_program};
ghost use Rattle.book_writer.specs.declared.Written.{Written};
ghost use Rattle.answer_text.specs.Books.{Prints};

use answer_text::ANSWER;
use program::{CELLS, LITERALS};
use search_entry::workspace::Workspace;
use state::parts::Limits;
use std::io;
use text_cards::printing::print_card;

// The answer's table holds the text's card then, whatever stood in the others.
// stays (proof): where the tables are made and lent in one function the check runs out of stack over their zeros
fn print_text(
    rt: &impl Print,
    text: &[u8],
    limits: Limits,
    cells: &mut [u16; CELLS],
    literals: &mut [i16; LITERALS],
    work: &mut Workspace,
    answer: &mut [u8; ANSWER],
) -> io::Result<()>
    ensures { (written : Written)
        × Prints
        (card_program (capped limits.numbers limits.clauses) table_bytes text.now)
        answer.old
        written
        answer.new }
{
    let written = print_card(text, limits, cells, literals, work, answer);
    rt.write_all(answer.get(..written.length).unwrap_or(&[]))
}

// The tables stand before the arguments are read: behind the early return the compiler would build the workspace a second time, and the stack hold both.
fn main(rt: HostRuntime) -> io::Result<()> {
    let mut room = [0u8; program::ROOM];
    let mut answer = [0u8; ANSWER];
    let mut cells = [0u16; CELLS];
    let mut literals = [0i16; LITERALS];
    let mut work = Workspace::ZEROS;
    let Some(limits) = arguments::limits(&rt, b"card")? else {
        return Ok(());
    };
    let text = program::read(&rt, &mut room);
    print_text(
        &rt,
        text,
        limits,
        &mut cells,
        &mut literals,
        &mut work,
        &mut answer,
    )
}
