// Paper 01's table of bench cases, its other cases, and wish 5's figures, on the compiled code: the answer of every call, one to a line.
#![tactic(auto)]

use calls::{book_a, card, forget, open, query, rule, title};
use lent_texts::{CELLS, LITERALS};
use search_entry::workspace::Workspace;

mod calls; // a call, made and printed
mod print;

fn bench(cells: &mut [u16], literals: &mut [i16], work: &mut Workspace) {
    title(b"A");
    book_a(cells, literals);
    card::<4>(cells, literals, work);
    title(b"A with (flags 2 1)");
    open(
        cells,
        literals,
        b"(book 1)\n(flags 2 1)\n(exists 3)\n(forall 4)\n(rule 3 4 (no 1))\n(rule (no 3) (no 4) 2)\n(rule 1 2)\n(end)\n",
    );
    card::<4>(cells, literals, work);
    title(b"A, query 1 on; again");
    book_a(cells, literals);
    query(cells, literals, work, &[1], &[2]);
    query(cells, literals, work, &[1], &[2]);
    title(b"A, query 2 on");
    book_a(cells, literals);
    query(cells, literals, work, &[2], &[1]);
    title(b"B, card twice, then no flag on");
    open(
        cells,
        literals,
        b"(book 1)\n(flags 1)\n(exists 2)\n(rule 2)\n(rule (no 2))\n(end)\n",
    );
    card::<0>(cells, literals, work);
    card::<0>(cells, literals, work);
    query(cells, literals, work, &[0; 0], &[1]);
    title(b"C");
    open(
        cells,
        literals,
        b"(book 1)\n(flags 1 2)\n(exists 3)\n(forall 4)\n(rule 3 4 1)\n(rule (no 3) (no 4) 2)\n(end)\n",
    );
    card::<4>(cells, literals, work);
    title(b"flags 1 2, no rule");
    open(cells, literals, b"(book 1)\n(flags 1 2)\n(end)\n");
    card::<2>(cells, literals, work);
    title(b"forall 1, rule 1");
    open(
        cells,
        literals,
        b"(book 1)\n(flags)\n(forall 1)\n(rule 1)\n(end)\n",
    );
    card::<0>(cells, literals, work);
}

fn bench_d(cells: &mut [u16], literals: &mut [i16], work: &mut Workspace) {
    title(b"D, then rule 2 added");
    open(
        cells,
        literals,
        b"(book 1)\n(flags)\n(forall 1)\n(exists 2)\n(rule 1 2)\n(rule (no 1) (no 2))\n(end)\n",
    );
    card::<0>(cells, literals, work);
    rule(cells, literals, &[2]);
    card::<0>(cells, literals, work);
    title(b"exists 1, forall 2, D's rules");
    open(
        cells,
        literals,
        b"(book 1)\n(flags)\n(exists 1)\n(forall 2)\n(rule 1 2)\n(rule (no 1) (no 2))\n(end)\n",
    );
    card::<0>(cells, literals, work);
}

fn limits(cells: &mut [u16], literals: &mut [i16]) {
    title(b"16 and 17 literals");
    open(
        cells,
        literals,
        b"(book 1)\n(flags)\n(exists 1 2 3 4 5 6 7 8 9 10 11 12 13 14 15 16 17 18 19 20 21 22 23 24 25 26 27 28 29 30 31 32 33 34 35 36 37 38 39 40)\n(end)\n",
    );
    rule(
        cells,
        literals,
        &[1, 2, 3, 4, 5, 6, 7, 8, 9, 10, 11, 12, 13, 14, 15, 16],
    );
    rule(
        cells,
        literals,
        &[1, 2, 3, 4, 5, 6, 7, 8, 9, 10, 11, 12, 13, 14, 15, 16, 17],
    );
    title(b"number 40 and 41, 0 and -32768, not declared, twice, none");
    rule(cells, literals, &[-40]);
    rule(cells, literals, &[41]);
    rule(cells, literals, &[0]);
    rule(cells, literals, &[-32768]);
    open(cells, literals, b"(book 1)\n(flags 1)\n(end)\n");
    rule(cells, literals, &[2]);
    rule(cells, literals, &[1, -1]);
    rule(cells, literals, &[0; 0]);
    rule(cells, literals, &[1, 1]);
    title(b"rule 255 and 256");
    open(cells, literals, b"(book 1)\n(flags)\n(exists 1)\n(end)\n");
    for _ in 1..tables::CLAUSES {
        let _ = rule_calls::rule(cells, literals, &[1]);
    }
    rule(cells, literals, &[1]);
    rule(cells, literals, &[1]);
}

fn others(cells: &mut [u16], literals: &mut [i16], work: &mut Workspace) {
    title(b"A's card in 4 bytes, forgotten, in 3, in 4 again");
    book_a(cells, literals);
    card::<4>(cells, literals, work);
    forget(cells, literals);
    card::<3>(cells, literals, work);
    card::<4>(cells, literals, work);
    title(b"queries that are refused");
    book_a(cells, literals);
    query(cells, literals, work, &[3], &[1]);
    query(cells, literals, work, &[1, 1], &[2]);
    query(cells, literals, work, &[-1], &[2]);
    query(cells, literals, work, &[-32768], &[0; 0]);
    query(cells, literals, work, &[1], &[1]);
    query(cells, literals, work, &[0; 0], &[2, 2]);
    title(b"a malformed state");
    open(cells, literals, b"(book 1)\n(flags 1 1)\n(end)\n");
    rule(cells, literals, &[1]);
    query(cells, literals, work, &[1], &[0; 0]);
    card::<3>(cells, literals, work);
    forget(cells, literals);
}

// Wish 5's figures: flags the logger did not record, on book A; an open query between two full ones.
fn open_flags(cells: &mut [u16], literals: &mut [i16], work: &mut Workspace) {
    title(b"A, flag 1 or 2 recorded alone, or none");
    book_a(cells, literals);
    query(cells, literals, work, &[2], &[0; 0]);
    query(cells, literals, work, &[0; 0], &[2]);
    query(cells, literals, work, &[0; 0], &[0; 0]);
    query(cells, literals, work, &[1], &[0; 0]);
    query(cells, literals, work, &[0; 0], &[1]);
    title(b"A, query 1 on; 2 off alone; 1 on again");
    book_a(cells, literals);
    query(cells, literals, work, &[1], &[2]);
    query(cells, literals, work, &[0; 0], &[2]);
    query(cells, literals, work, &[1], &[2]);
}

// stays (proof): where the tables are made and lent in one function the check runs out of stack over their zeros
fn print_rows(cells: &mut [u16; CELLS], literals: &mut [i16; LITERALS], work: &mut Workspace) {
    bench(cells, literals, work);
    bench_d(cells, literals, work);
    limits(cells, literals);
    others(cells, literals, work);
    open_flags(cells, literals, work);
}

fn main() {
    let mut cells = [0u16; CELLS];
    let mut literals = [0i16; LITERALS];
    let mut work = Workspace::ZEROS;
    print_rows(&mut cells, &mut literals, &mut work);
}
