// Step 5 of a visit where both sides are done.
#![tactic(auto)]

ghost use Rattle.std.specs.Prelude.{◌≡◌, ◌*◌, ◌≤◌, ◌<◌, length, take, drop};
ghost use Rattle.qbf.specs.Formula.{highest};
ghost use Rattle.search_entry.specs.Tables.{Numbered};
ghost use Rattle.both_sides.specs.Step.{Onward, Counted};

use node::{Answer, OffSide, Verdict};
use search_entry::{ASIDE, Learned, Matrix};

mod both; // what the verdicts of both sides ask for
mod join; // the resolvent of both sides, where it is asked for

// What a node of `at` places, whose next variable has that quantifier, has put aside of its off side: its verdict and its constraint.
#[derive(Clone, Copy)]
pub struct Aside<'a> {
    pub verdict: Verdict,
    pub kind: u16,
    pub at: usize,
    pub codes: &'a [u16],
    pub ghost short: { length codes.now ≤ highest.numbers },
}

// What the node of that off side put aside: its row among those of the nodes.
pub fn put_by<'a>(aside: &'a [u16; ASIDE], off: OffSide) -> Aside<'a>
    ensures { (result.verdict ≡ off.answer.verdict)
        × (result.kind ≡ off.kind)
        × (result.at ≡ off.at)
        × (result.codes.now ≡ take off.answer.len (drop (off.at * highest.numbers) aside.now)) }
{
    let from = off.at * tables::HIGHEST_NUMBERS;
    Aside {
        verdict: off.answer.verdict,
        kind: off.kind,
        at: off.at,
        codes: &aside[from..from + off.answer.len],
    }
}

// stays (no plainer): `Numbered learned` is used up, a number by each row that is stored: shelves that kept it could not be written to
// Both sides done, where the off side did not go up: the on side's result, the resolvent of both, which is made in that area and stored, or Mixed.
#[inline(always)] // a part of the search's one function: bench/ sees it
pub fn finish<'a>(
    off: Aside<'a>,
    on: Answer,
    matrix: &'a Matrix,
    area: &'a [u16; tables::CODES_AREA],
    made: &mut [u16; tables::CODES_AREA],
    learned: &mut Learned,
) -> Answer
    requires { Numbered learned.old }
    ensures finished { Counted on result learned.old learned.new }
    ensures joined { Onward
        off.entry.verdict
        off.entry.kind
        off.entry.at
        off.entry.codes.now
        on
        result
        matrix.now
        area.now
        learned.old
        learned.new }
{
    match both::step_of(off.verdict, on.verdict, off.kind) {
        both::Step::Mixed => both::mixed(on),
        both::Step::On => on,
        both::Step::Clauses => join::join(off, on, matrix, area, made, &mut learned.clauses),
        both::Step::Cubes => join::join(off, on, matrix, area, made, &mut learned.cubes),
    }
}
