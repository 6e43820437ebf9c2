// The program `qdimacs`: a QDIMACS text on standard input, the same book in our own text on standard output.
#![tactic(auto)]

ghost use Rattle.qbf.specs.Formula.{capped};
ghost use Rattle.qdimacs_printer.specs.Printing.{qdimacs_program, Printed};

use program::{CELLS, LITERALS};
use qdimacs_printer::print_book;
use state::parts::Limits;
use std::io;

// What is printed of the text, on the program's own tables for a state, whatever stands in them.
fn print(
    text: &[u8],
    limits: Limits,
    cells: &mut [u16; CELLS],
    literals: &mut [i16; LITERALS],
    out: &mut [u8; qdimacs_printer::ROOM],
) -> usize
    ensures { Printed (qdimacs_program (capped limits.numbers limits.clauses) text.now) result out.new }
{
    print_book(text, limits, cells, literals, out)
}

fn main(rt: HostRuntime) -> io::Result<()> {
    let mut room = [0u8; program::ROOM];
    let mut out = [0u8; qdimacs_printer::ROOM];
    let mut cells = [0u16; CELLS];
    let mut literals = [0i16; LITERALS];
    let Some(limits) = arguments::limits(&rt, b"qdimacs")? else {
        return Ok(());
    };
    let text = program::read(&rt, &mut room);
    let length = print(text, limits, &mut cells, &mut literals, &mut out);
    rt.write_all(out.get(..length).unwrap_or(&[]))
}
