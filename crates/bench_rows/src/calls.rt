// One call, made and its answer printed; and the books that it is made on.
ghost use Rattle.std.specs.Prelude.{◌≤◌};

use crate::print;
use crate::print::{number, text};
use asking::asked::Asked;
use refusal::Refusal;
use replies::Ruling;
use search_entry::workspace::Workspace;
use state::parts::Limits;

// The book of a text, under the limits of paper 01. Every text here opens but one; the calls on what that leaves tell it.
pub fn open(cells: &mut [u16], literals: &mut [i16], book: &[u8]) {
    let limits = Limits {
        numbers: tables::NUMBERS,
        clauses: tables::CLAUSES,
    };
    let _ = opening::open(book, limits, cells, literals);
}

fn refused(refusal: Refusal) {
    text(b"refused ");
    number(refusal.number() as u64);
}

fn change(c: Result<(), Refusal>) {
    match c {
        Ok(()) => text(b"done"),
        Err(refusal) => refused(refusal),
    }
    text(b"\n");
}

// A rule added, with its answer.
pub fn rule(cells: &mut [u16], literals: &mut [i16], lits: &[i16]) {
    let c = rule_calls::rule(cells, literals, lits);
    text(b"rule: ");
    change(c);
}

pub fn forget(cells: &mut [u16], literals: &[i16]) {
    let c = rule_calls::forget(cells, literals);
    text(b"forget: ");
    change(c);
}

fn visits(n: u64) {
    text(b", visits ");
    number(n);
    text(b"\n");
}

pub fn query(
    cells: &mut [u16],
    literals: &mut [i16],
    work: &mut Workspace,
    on: &[i16],
    off: &[i16],
) {
    text(b"query: ");
    let asked = Asked {
        on,
        off,
        ceiling: tables::HIGHEST_CEILING,
    };
    let r = search_calls::query(cells, literals, work, asked);
    match r.ruling {
        Ok(Ruling::Swap) => text(b"swap"),
        Ok(Ruling::Keep) => text(b"keep"),
        Ok(Ruling::Unsettled) => text(b"unsettled"),
        Err(refusal) => refused(refusal),
    }
    visits(r.visits);
}

fn bytes(t: &[u8]) {
    for byte in t {
        text(b" ");
        print::byte(*byte);
    }
}

// The table is lent with a byte that is none of the card's in each of its N cells.
pub fn card<const N: usize>(cells: &mut [u16], literals: &mut [i16], work: &mut Workspace)
    requires { N ≤ 4 }
{
    let mut table = [9u8; N];
    text(b"card: ");
    let r = search_calls::card_of(
        cells,
        literals,
        work,
        &mut table,
        true,
        tables::HIGHEST_CEILING,
    );
    match r.lines {
        Ok(lines) => {
            text(b"lines ");
            number(lines as u64);
        }
        Err(refusal) => refused(refusal),
    }
    text(b", table");
    bytes(&table);
    visits(r.visits);
}

pub fn title(t: &[u8]) {
    text(t);
    text(b"\n");
}

pub fn book_a(cells: &mut [u16], literals: &mut [i16]) {
    open(
        cells,
        literals,
        b"(book 1)\n(flags 1 2)\n(exists 3)\n(forall 4)\n(rule 3 4 (no 1))\n(rule (no 3) (no 4) 2)\n(rule 1 2)\n(end)\n",
    );
}
