// The program `day`: a total on standard input, up to eight books, then one call at a place to a line, each answered as soon as its line is read.
#![tactic(auto)]

use arguments::Arguments;
use day_lines::{ANSWER, Kept};
use day_turns::{CELLS, LITERALS, ROOM, Stage, turn};
use input::read_more;
use reader::call::TABLE;
use search_entry::workspace::Workspace;
use shares::BOOKS;
use std::io;
use std::io::{Input, Print, Read};

// A turn after the other, as many as no day uses up. Where the program does not wait, what it holds is used first.
// stays (no plainer): each table is lent to the turn; a struct of loans would be made for this one call, and no clause could say what it ends as
fn run<R: Read>(
    rt: &impl Print,
    reader: &mut R,
    kept: &mut Kept,
    text: &mut [u8; ROOM],
    cells: &mut [u16; CELLS],
    literals: &mut [i16],
    work: &mut Workspace,
    cards: &mut [[u8; TABLE]; BOOKS],
    answer: &mut [u8; ANSWER],
) -> io::Result<()> {
    let mut s = day_turns::start();
    for _ in 0..u64::MAX {
        let got = if s.waits() {
            read_more(reader, text, s.place.held)
        } else {
            0
        };
        s = turn(s, got, text, kept, cells, literals, work, cards, answer);
        rt.write_all(answer.get(..s.length).unwrap_or(&[]))?;
        if matches!(s.stage, Stage::Over) {
            break;
        }
    }
    Ok(())
}

// The literals of eight books are too many for a stack. The other tables stand before the arguments are read, as in `card`.
fn main(rt: HostRuntime) -> io::Result<()> {
    let mut text = [0u8; ROOM];
    let mut cells = [0u16; CELLS];
    let mut cards = [[tables::OPEN; TABLE]; BOOKS];
    let mut answer = [0u8; ANSWER];
    let mut work = Workspace::ZEROS;
    if !matches!(arguments::read(&rt), Arguments::Empty) {
        return rt.write_all(b"usage: day\n");
    }
    let mut literals = vec![in rt.alloc(); 0i16; LITERALS]?;
    run(
        &rt,
        &mut rt.reader(),
        &mut day_turns::unloaded(),
        &mut text,
        &mut cells,
        &mut literals,
        &mut work,
        &mut cards,
        &mut answer,
    )
}
