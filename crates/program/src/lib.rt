// A program that answers one text: standard input, read to its end.
#![tactic(auto)]

ghost use Rattle.std.specs.Prelude.{◌≤◌, length};
ghost use Rattle.qbf.specs.Formula.{capped};
ghost use Rattle.state_parts.specs.Parts.{Whole};
ghost use Rattle.arguments.specs.Arguments.{longest_name};

pub use lent_texts::{CELLS, LITERALS};
use state::parts::Limits;
use std::env::Env;
use std::io;
use std::io::{Input, Print};

// One byte more than a text may have.
pub const ROOM: usize = reader::text::TEXT + 1;

// The text: what of it the table holds.
pub fn read<'a>(rt: &impl Input, room: &'a mut [u8; ROOM]) -> &'a [u8] {
    let held = input::read_all(&mut rt.reader(), room);
    &room[..held]
}

// What `print` writes onto tables of the programs' sizes: they are whole under any limits, whatever stands in them.
// stays (form): the two tables of a state are lent one by one, since no clause says what a struct of loans ends as
fn lend<F: FnOnce(&[u8], Limits, &mut [u16], &mut [i16], &mut [u8; reader::text::TEXT]) -> usize>(
    print: F,
    text: &[u8],
    limits: Limits,
    cells: &mut [u16; CELLS],
    literals: &mut [i16; LITERALS],
    out: &mut [u8; reader::text::TEXT],
) -> usize
    requires { F.IsAlwaysCallable print }
    ensures { Whole (capped limits.numbers limits.clauses) cells.old literals.old }
{
    print(text, limits, cells, literals, out)
}

// What is printed of the text under the limits of the program's arguments: what `print` writes into a table of a text's size, where it has so many bytes.
// stays (no plainer): `length [u8] ≤ longest_name` is of a word that each program writes once; a type for it would be made there and taken off where it is printed
pub fn print_text<
    F: FnOnce(&[u8], Limits, &mut [u16], &mut [i16], &mut [u8; reader::text::TEXT]) -> usize,
>(rt: &(impl Env + Input + Print), name: &[u8], print: F) -> io::Result<()>
    requires { F.IsAlwaysCallable print × (length name.now ≤ longest_name) }
{
    let mut room = [0u8; ROOM];
    let mut out = [0u8; reader::text::TEXT];
    let mut cells = [0u16; CELLS];
    let mut literals = [0i16; LITERALS];
    let Some(limits) = arguments::limits(rt, name)? else {
        return Ok(());
    };
    let text = read(rt, &mut room);
    let length = lend(print, text, limits, &mut cells, &mut literals, &mut out);
    rt.write_all(out.get(..length).unwrap_or(&[]))
}
