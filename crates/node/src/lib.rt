// What a visit hands up and where it stands; and of step 5, what the off side gives.
#![tactic(auto)]

ghost use Rattle.std.specs.Prelude.{◌≡◌, true, false, suc, ◌+◌, ◌-◌, ◌*◌, ◌≤◌, ◌<◌, length, take, drop};
ghost use Rattle.qbf.specs.Formula.{highest, Quantifier, Prefix};
ghost use Rattle.qbf.specs.Truth.{Outcome};
ghost use Rattle.qbf.specs.Learning.{Constraint};
ghost use Rattle.tables.specs.Views.{quantifier_code};
ghost use Rattle.search_entry.specs.Within.{nowhere};
ghost use Rattle.node.specs.Node.{bounds_of, entry_of, Reads, Ended, goes_up_of, NextKind};

pub use answer::Answer;
use coding::list::{wide, write};
pub use position::{Depth, OffSide, Position};
use resolution::ends_next;
use search_entry::{ASIDE, Bounds, Learned, Source, entry};

mod answer; // what a visit hands up
pub mod position; // where a visit stands
pub mod side; // what the verdict of one side says

// "two Yes give Yes, two No give No, anything else Mixed"
#[derive(Clone, Copy, PartialEq, Eq)]
pub enum Verdict {
    Yes,
    No,
    Mixed,
}

// The quantifier of the next place; END where none is left.
// stays (no plainer): the cell behind a shorter prefix is END too, so that its callers tell both by one test; of an Option they would test for None, and for an END in it.
pub fn next_kind<'a>(quantifiers: &'a [u8; tables::CODES], at: usize) -> u16
    ensures { NextKind quantifiers.now at result }
{
    if at < tables::HIGHEST_NUMBERS {
        return wide(quantifiers[at * 2 + 2]);
    }
    wide(tables::END)
}

// The bounds of the constraint.
// stays (speed): an answer is built field by field, which took 4 to 10 % off a visit (docs/DECISIONS.md); a struct of the three inside it would be copied whole
pub fn bounds_of(a: Answer) -> Bounds
    ensures { result ≡ bounds_of a }
{
    Bounds {
        source: a.source,
        start: a.start,
        len: a.len,
    }
}

// The codes of the constraint: that part of the clauses, of the learned constraints of its polarity, or of the area.
pub fn entry_of<'a>(
    a: Answer,
    rows: &'a [u16; tables::CLAUSE_ROWS],
    learned: &'a Learned,
    area: &'a [u16; tables::CODES_AREA],
) -> &'a [u16]
    ensures { (result.now
        ≡ entry_of a rows.now learned.now.clauses.cells.now learned.now.cubes.cells.now area.now)
        × (length result.now ≡ a.len) }
{
    let (clauses, cubes) = (&*learned.clauses.cells, &*learned.cubes.cells);
    let stored = side::stored(a.verdict, clauses, cubes);
    entry(rows, stored, area, bounds_of(a))
}

// Whether the off side's outcome, with the constraint of that row, goes up without a further visit. A stop does.
pub fn goes_up<'a>(off: Answer, row: &'a [u16], kind: u16, at: usize) -> bool
    ensures { ((D : Prefix) (κ : Quantifier) (o : Outcome Constraint)
        → quantifier_code κ ≡ kind
        → Reads D off.verdict row.now o
        → Ended D (suc at) o
        → 1 ≤ off.budget
        → result ≡ goes_up_of D κ (suc at) o)
        × (off.verdict ≡ Verdict.Mixed → off.budget ≡ 0 → result ≡ true) }
{
    if side::is_mixed(off.verdict) {
        return off.budget == 0;
    }
    side::is_enough(off.verdict, kind) || !ends_next(row, at)
}

// stays (no plainer): `length [u16] ≤ highest.numbers` is what `sides` of the search has cut the row by; a struct of it would be made there for one call, and taken apart here
// Puts the off side's constraint aside, so that it survives what is stored while the on side is visited. The rows of the nodes above stay.
pub fn put_aside<'a>(aside: &mut [u16; ASIDE], at: usize, row: &'a [u16])
    requires { (at < highest.numbers) × (length row.now ≤ highest.numbers) }
    ensures { (take (at * highest.numbers) aside.new ≡ take (at * highest.numbers) aside.old)
        × (take (length row.now) (drop (at * highest.numbers) aside.new) ≡ row.now) }
{
    write(&mut aside[at * tables::HIGHEST_NUMBERS..], row);
}

// Whether the off side's outcome, with the constraint of that row, goes up; else the row is put aside.
pub fn up_or_aside<'a>(off: OffSide, row: &'a [u16], aside: &mut [u16; ASIDE]) -> bool
    requires { length row.now ≤ highest.numbers }
    ensures up { ((D : Prefix) (κ : Quantifier) (o : Outcome Constraint)
        → quantifier_code κ ≡ off.kind
        → Reads D off.answer.verdict row.now o
        → Ended D (suc off.at) o
        → 1 ≤ off.answer.budget
        → result ≡ goes_up_of D κ (suc off.at) o)
        × (off.answer.verdict ≡ Verdict.Mixed → off.answer.budget ≡ 0 → result ≡ true) }
    ensures size { length aside.new ≡ length aside.old }
    ensures put { (take (off.at * highest.numbers) aside.new ≡ take (off.at * highest.numbers) aside.old)
        × (result ≡ false → take (length row.now) (drop (off.at * highest.numbers) aside.new) ≡ row.now) }
{
    if goes_up(off.answer, row, off.kind, off.at) {
        return true;
    }
    put_aside(aside, off.at, row);
    false
}

// The answer of a visit that does not branch.
// stays (speed): an answer is built field by field, which took 4 to 10 % off a visit (docs/DECISIONS.md); a struct of the three inside it would be copied whole
pub fn settled(verdict: Verdict, b: Bounds, budget: u64, lines: usize) -> Answer
    ensures { result ≡ record { verdict = verdict; source = b.source; start = b.start; len = b.len; budget = budget - 1; lines = lines; inside = b.inside } }
{
    Answer {
        verdict,
        source: b.source,
        start: b.start,
        len: b.len,
        budget: budget.saturating_sub(1),
        lines,
    }
}

// The answer of a visit that is not made.
pub fn stopped(lines: usize) -> Answer
    ensures { result ≡ record { verdict = Verdict.Mixed; source = Source.Area; start = 0; len = 0; budget = 0; lines = lines; inside = nowhere } }
{
    Answer {
        verdict: Verdict::Mixed,
        source: Source::Area,
        start: 0,
        len: 0,
        budget: 0,
        lines,
    }
}

// The answer with other lines.
// stays (speed): field by field, which took 4 to 10 % off a visit (docs/DECISIONS.md); and a literal of a struct that keeps a fact takes no `..`
pub fn with_lines(a: Answer, lines: usize) -> Answer
    ensures { result ≡ record a { lines = lines } }
{
    Answer {
        verdict: a.verdict,
        source: a.source,
        start: a.start,
        len: a.len,
        budget: a.budget,
        lines,
    }
}
