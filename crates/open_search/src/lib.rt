// The plain search for a reading with open flags: "A query with an open flag goes as the plain walk from the empty node, entering one side only at a recorded
// flag." A visit of a node, the branch on its next variable, the visitors of exists, forall and free variables, and both sides, which call one another over lent
// tables; the number of open places falls. Each place has its row of satisfied clauses, and nothing of it is undone: only rows below the node are written. The budget
// goes down with the visits; where none is left the visit is not made, and the other visits on the way up are not made either.
#![tactic(auto)]

ghost use Rattle.std.specs.Prelude.{suc, ◌+◌, ◌-◌, ◌≤◌, ◌<◌, ◌≡◌, get_or};
ghost use Rattle.qbf.specs.Formula.{highest, exists, forall};
ghost use Rattle.tables.specs.Views.{quantifier_code};
ghost use Rattle.tables.specs.Codes.{code_at};
ghost use Rattle.tables.specs.Matrices.{RowLength};
ghost use Rattle.tables.specs.Shelves.{code_count};
ghost use Rattle.open_search.specs.Searching.{Inside, Left, Visited, Followed, Branched, Entered};

use inner::Given;
use inner::dying::any_dies;
use inner::step_down::row_down;
use node::side::is_enough;
use node::{Verdict, next_kind};
use search_entry::Matrix;
use verdicts::{Finding, counted, found, joined};

pub mod verdicts; // the verdicts of two sides, and what a visit hands up

// Where a visit stands: the node's length, and the words of a row of clauses. The budget goes beside it, since two words are handed on in registers and three are not: with the
// budget in it a query with every flag open took 1.3 to 1.8 times as long.
#[derive(Clone, Copy)]
pub struct Place {
    pub at: usize,
    pub words: usize,
    pub ghost inside: { Inside at words },
}

impl Place {
    // The same where there is a next place.
    // stays (no plainer): a struct that keeps a fact is made field by field
    fn fork(self) -> Fork
        requires { self.at < highest.numbers }
        ensures { (result.at ≡ self.at) × (result.words ≡ self.words) }
    {
        Fork {
            at: self.at,
            words: self.words,
        }
    }
}

// Where a visit stands at a node that has a next place.
#[derive(Clone, Copy)]
pub struct Fork {
    pub at: usize,
    pub words: usize,
    pub ghost next: { at < highest.numbers },
    pub ghost long: { RowLength words },
}

impl Fork {
    // Where its sides stand.
    fn below(self) -> Place
        ensures { (result.at ≡ self.at + 1) × (result.words ≡ self.words) }
    {
        Place {
            at: self.at + 1,
            words: self.words,
        }
    }

    // What is recorded of the next place.
    fn recorded_in<'a>(self, recorded: &'a [u8; tables::HIGHEST_BY_NUMBER]) -> u8
        ensures { result ≡ get_or recorded.now (suc self.at) 0 }
    {
        recorded[self.at + 1]
    }
}

// The code of the literal that a place's value makes true.
// stays (no plainer): `usize ≤ highest.numbers` is asked of a place alone: `Place` keeps more than that, a row's words, and `literal::Place` is of any limit and keeps no fact; a struct of
// one number that did would be made at the call and opened here
fn code_at(place: usize, on: bool) -> u16
    requires { place ≤ highest.numbers }
    ensures { (result ≡ code_at place on) × (result < code_count) }
{
    (place * 2 + on as usize) as u16
}

// The search at the empty node: none of the clauses is dead there, and not all are satisfied.
pub fn start<'a>(
    matrix: &'a Matrix,
    recorded: &'a [u8; tables::HIGHEST_BY_NUMBER],
    sat: &mut [u64; tables::SATISFIED],
    words: usize,
    budget: u64,
) -> Finding
    requires { Inside 0 words }
    ensures { (result.budget ≤ budget)
        × Followed
        0
        words
        budget
        result
        matrix.now.sets
        matrix.now.quantifiers
        recorded.now
        sat.old }
{
    let empty = Place { at: 0, words };
    branch(matrix, recorded, sat, empty, budget)
}

// "A visit counts one. If a rule is dead: No. Else if every rule is satisfied: Yes. Else the next place decides". "The walk stops before the visit
// that would exceed" the ceiling.
#[cycle(branch_exists_forall_free_sides_visit)]
fn visit<'a>(
    matrix: &'a Matrix,
    recorded: &'a [u8; tables::HIGHEST_BY_NUMBER],
    sat: &mut [u64; tables::SATISFIED],
    p: Place,
    budget: u64,
    on: bool,
) -> Finding
    requires { 1 ≤ p.at }
    ensures { Left p.at p.words budget result sat.old sat.new
        × Visited
        p.at
        p.words
        budget
        on
        result
        matrix.now.sets
        matrix.now.quantifiers
        recorded.now
        sat.old }
{
    let spent = budget <= 1;
    if spent {
        return found(Verdict::Mixed, 0);
    }
    let given = Given {
        at: p.at,
        code: code_at(p.at, on),
        words: p.words,
    };
    if any_dies(&matrix.sets, sat, given) {
        return found(Verdict::No, counted(budget));
    }
    let step = row_down(&matrix.sets, sat, given);
    if step.all {
        return found(Verdict::Yes, counted(budget));
    }
    branch(matrix, recorded, sat, p, budget)
}

// "Else the next place decides, off first." Where no place is left a clause is dead or all are satisfied.
#[cycle(branch_exists_forall_free_sides_visit)]
fn branch<'a>(
    matrix: &'a Matrix,
    recorded: &'a [u8; tables::HIGHEST_BY_NUMBER],
    sat: &mut [u64; tables::SATISFIED],
    p: Place,
    budget: u64,
) -> Finding
    ensures { Left (suc p.at) p.words budget result sat.old sat.new
        × Followed
        p.at
        p.words
        budget
        result
        matrix.now.sets
        matrix.now.quantifiers
        recorded.now
        sat.old }
{
    let kind = next_kind(&matrix.quantifiers, p.at);
    if kind == tables::EXISTS {
        exists(matrix, recorded, sat, p.fork(), budget)
    } else if kind == tables::FORALL {
        forall(matrix, recorded, sat, p.fork(), budget)
    } else if kind == tables::FREE {
        free(matrix, recorded, sat, p.fork(), budget)
    } else {
        found(Verdict::No, counted(budget))
    }
}

// "An exists node visits the off side and stops on Yes".
// stays (form): the visitors of the three quantifiers are over one body
// stays (no plainer): `matrix, recorded, sat` go through the visitors together; a struct of them would be taken apart at each call out of the cycle, as `any_dies` and `row_down` take
// the sets and `sat`, `next_kind` the quantifiers, and `recorded_in` only what is recorded
#[cycle(branch_exists_forall_free_sides_visit)]
fn exists<'a>(
    matrix: &'a Matrix,
    recorded: &'a [u8; tables::HIGHEST_BY_NUMBER],
    sat: &mut [u64; tables::SATISFIED],
    p: Fork,
    budget: u64,
) -> Finding
    ensures { Left (suc p.at) p.words budget result sat.old sat.new
        × Branched
        (quantifier_code exists)
        p.at
        p.words
        budget
        result
        matrix.now.sets
        matrix.now.quantifiers
        recorded.now
        sat.old }
{
    sides(matrix, recorded, sat, p, budget, tables::EXISTS)
}

// "A forall node visits the off side and stops on No".
// stays (form): the visitors of the three quantifiers are over one body
#[cycle(branch_exists_forall_free_sides_visit)]
fn forall<'a>(
    matrix: &'a Matrix,
    recorded: &'a [u8; tables::HIGHEST_BY_NUMBER],
    sat: &mut [u64; tables::SATISFIED],
    p: Fork,
    budget: u64,
) -> Finding
    ensures { Left (suc p.at) p.words budget result sat.old sat.new
        × Branched
        (quantifier_code forall)
        p.at
        p.words
        budget
        result
        matrix.now.sets
        matrix.now.quantifiers
        recorded.now
        sat.old }
{
    sides(matrix, recorded, sat, p, budget, tables::FORALL)
}

// "entering one side only at a recorded flag": its verdict is the node's. An open one: "A flag node visits both".
// stays (form): the visitors of the three quantifiers are over one body
#[cycle(branch_exists_forall_free_sides_visit)]
fn free<'a>(
    matrix: &'a Matrix,
    recorded: &'a [u8; tables::HIGHEST_BY_NUMBER],
    sat: &mut [u64; tables::SATISFIED],
    p: Fork,
    budget: u64,
) -> Finding
    ensures { Left (suc p.at) p.words budget result sat.old sat.new
        × Entered
        p.at
        p.words
        budget
        result
        matrix.now.sets
        matrix.now.quantifiers
        recorded.now
        sat.old }
{
    let value = p.recorded_in(recorded);
    let open = value == tables::OPEN;
    if open {
        return sides(matrix, recorded, sat, p, budget, tables::FREE);
    }
    let below = p.below();
    let left = counted(budget);
    visit(matrix, recorded, sat, below, left, value == tables::ON)
}

// What they share: the off side is enough, or the on side is visited too. A stop of the off side leaves no budget for it.
#[cycle(branch_exists_forall_free_sides_visit)]
fn sides<'a>(
    matrix: &'a Matrix,
    recorded: &'a [u8; tables::HIGHEST_BY_NUMBER],
    sat: &mut [u64; tables::SATISFIED],
    p: Fork,
    budget: u64,
    kind: u16,
) -> Finding
    ensures { Left (suc p.at) p.words budget result sat.old sat.new
        × Branched
        kind
        p.at
        p.words
        budget
        result
        matrix.now.sets
        matrix.now.quantifiers
        recorded.now
        sat.old }
{
    let below = p.below();
    let left = counted(budget);
    let off = visit(matrix, recorded, sat, below, left, false);
    if is_enough(off.verdict, kind) {
        return off;
    }
    let on = visit(matrix, recorded, sat, below, off.budget, true);
    found(joined(kind, off.verdict, on.verdict), on.budget)
}
