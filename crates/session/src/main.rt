// The program `session`: a book on standard input, then one call to a line, each answered as soon as its line is read.
#![tactic(auto)]

ghost use Rattle.qbf.specs.Formula.{capped};
ghost use Rattle.state_parts.specs.Parts.{Whole};

use answer_text::ANSWER;
use input::read_more;
use program::{CELLS, LITERALS};
use reader::call::TABLE;
use search_entry::workspace::Workspace;
use session_turns::{ROOM, Stage, turn};
use state::parts::Limits;
use std::io;
use std::io::{Input, Read};

// A turn after the other, as many as no session uses up. Where the program does not wait, what it holds is used first.
// The tables of the state that it begins with are whole under any limits.
// stays (no plainer): each table is lent to the turn; a struct of loans would be made for this one call, and no clause could say what it ends as
fn run<R: Read>(
    rt: &impl Print,
    reader: &mut R,
    limits: Limits,
    text: &mut [u8; ROOM],
    cells: &mut [u16; CELLS],
    literals: &mut [i16; LITERALS],
    work: &mut Workspace,
    cards: &mut [u8; TABLE],
    answer: &mut [u8; ANSWER],
) -> io::Result<()>
    ensures { Whole (capped limits.numbers limits.clauses) cells.old literals.old }
{
    let mut s = session_turns::start();
    for _ in 0..u64::MAX {
        let got = if s.stage.waits() {
            read_more(reader, text, s.stage.held())
        } else {
            0
        };
        s = turn(s, got, text, limits, cells, literals, work, cards, answer);
        rt.write_all(answer.get(..s.length).unwrap_or(&[]))?;
        if matches!(s.stage, Stage::Over) {
            break;
        }
    }
    Ok(())
}

// The tables stand before the arguments are read, as in `card`.
fn main(rt: HostRuntime) -> io::Result<()> {
    let mut text = [0u8; ROOM];
    let mut cells = [0u16; CELLS];
    let mut literals = [0i16; LITERALS];
    let mut cards = [tables::OPEN; TABLE];
    let mut answer = [0u8; ANSWER];
    let mut work = Workspace::ZEROS;
    let Some(limits) = arguments::limits(&rt, b"session")? else {
        return Ok(());
    };
    run(
        &rt,
        &mut rt.reader(),
        limits,
        &mut text,
        &mut cells,
        &mut literals,
        &mut work,
        &mut cards,
        &mut answer,
    )
}
