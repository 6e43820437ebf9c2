// The rows of a state's flat tables: clauses and learned constraints, each in place order, and a constraint reduced.
ghost use Rattle.std.specs.Prelude.{◌≡◌, ◌≤◌, ◌+◌, ◌*◌, not, length, take, drop};
ghost use Rattle.qbf.specs.Formula.{Prefix, paper, quantifier_at};
ghost use Rattle.qbf.specs.Learning.{dropped, last_place};
ghost use Rattle.qbf.specs.Calls.{in_order, clause_ok, constraint_ok};
ghost use Rattle.tables.specs.Views.{Places, Kinds};
ghost use Rattle.state.specs.Derived.{rows_fine};
ghost use Rattle.state.specs.Rows.{row_is_ok, table_is_ok};
ghost use Rattle.state.specs.Reading.{at_most, records_of};
ghost use Rattle.state.specs.Lent.{parts_state};

use crate::parts::{Limits, Parts, Rows};

// Each place is greater than the one before: so each variable is declared, and none stands twice.
pub fn in_order(places: &[u16], lits: &[i16]) -> bool
    ensures { (D : Prefix) → Places D places.now → result ≡ in_order D 0 lits.now }
{
    let mut last: usize = 0;
    for lit in lits {
        let place = literal::literal_place(places, *lit);
        if place <= last {
            return false;
        }
        last = place;
    }
    true
}

// Row k, which has that many literals, in rows of so many cells.
fn row(rows: Rows<'_>, width: usize, k: usize, len: usize) -> &[i16]
    requires { k * width + len ≤ length rows.flat.now }
    ensures { result.now ≡ take len (drop (k * width) rows.entry.flat.now) }
{
    let from = k * width;
    &rows.flat[from..from + len]
}

// "1 to 16 literals, no variable twice, .. in place order"
fn clause_ok(places: &[u16], lits: &[i16]) -> bool
    ensures { (D : Prefix) → Places D places.now → result ≡ clause_ok paper D lits.now }
{
    if lits.len() < 1 {
        return false;
    }
    if lits.len() > tables::LITERALS {
        return false;
    }
    in_order(places, lits)
}

// Reduction drops no literal from the end.
fn reduced(kinds: &[u16], lits: &[i16], cube: bool) -> bool
    ensures { (D : Prefix) →
        Kinds D kinds.now →
        result ≡ not (dropped cube (quantifier_at D (last_place D lits.now))) }
{
    let n = lits.len();
    if n == 0 {
        return true;
    }
    let kind = literal::literal_kind(kinds, lits[n - 1]);
    !literal::drops(kind, cube)
}

// The tables by number that show the prefix.
#[derive(Clone, Copy)]
pub struct Shown<'a> {
    pub places: &'a [u16],
    pub kinds: &'a [u16],
}

fn constraint_ok(shown: Shown<'_>, lits: &[i16], cube: bool) -> bool
    ensures { (D : Prefix) →
        Places D shown.entry.places.now →
        Kinds D shown.entry.kinds.now →
        result ≡ constraint_ok D cube lits.now }
{
    if in_order(shown.places, lits) {
        reduced(shown.kinds, lits, cube)
    } else {
        false
    }
}

// What stands in a flat table.
#[derive(Clone, Copy)]
pub enum Holding {
    Clauses,
    LearnedClauses,
    LearnedCubes,
}

fn row_ok(shown: Shown<'_>, holding: Holding, lits: &[i16]) -> bool
    ensures { (D : Prefix) →
        Places D shown.entry.places.now →
        Kinds D shown.entry.kinds.now →
        result ≡ row_is_ok holding D lits.now }
{
    match holding {
        Holding::Clauses => clause_ok(shown.places, lits),
        Holding::LearnedClauses => constraint_ok(shown, lits, false),
        Holding::LearnedCubes => constraint_ok(shown, lits, true),
    }
}

// There may be `most` rows, of so many cells each.
fn rows_ok(shown: Shown<'_>, holding: Holding, rows: Rows<'_>, most: usize, width: usize) -> bool
    requires { most * width ≤ length rows.flat.now }
    ensures { (D : Prefix) →
        Places D shown.entry.places.now →
        Kinds D shown.entry.kinds.now →
        result ≡ table_is_ok width most holding D rows.entry.flat.now rows.entry.sizes.now }
{
    let count = crate::cells::count(rows.sizes);
    if count > most {
        return false;
    }
    // stays (no plainer): `sizes.iter().skip(1).take(count)` ends with the table, and a row behind its end, of size 0, is judged too; beside it `flat.chunks(width)`
    // asks for a width above 0, and a state's limit for numbers may be 0
    for k in 0..count {
        let len = crate::cells::entry(rows.sizes, k);
        if len > width {
            return false;
        }
        let lits = row(rows, width, k, len);
        if !row_ok(shown, holding, lits) {
            return false;
        }
    }
    true
}

// "The state check refuses a bar whose record exceeds the rules standing."
fn records_ok(sizes: &[u16], clauses: usize) -> bool
    ensures { result ≡ at_most clauses (records_of sizes.now) }
{
    let count = crate::cells::count(sizes);
    // stays (no plainer): over the table it is `sizes[sizes.len().min(tables::CONSTRAINT_SIZES)..].iter().take(count)`, which says again where a record stands
    (0..count).all(|k| crate::cells::record(sizes, k) <= clauses)
}

// Clauses, learned clauses, learned cubes, and the records of the learned clauses, under the limits for numbers and clauses.
pub fn all_ok(shown: Shown<'_>, parts: Parts<'_>, limits: Limits) -> bool
    requires { (limits.clauses * paper.literals ≤ length parts.clauses.flat.now)
        × (paper.constraints * limits.numbers ≤ length parts.learned_clauses.flat.now)
        × (paper.constraints * limits.numbers ≤ length parts.learned_cubes.flat.now) }
    ensures { (D : Prefix) →
        Places D shown.entry.places.now →
        Kinds D shown.entry.kinds.now →
        result ≡ rows_fine limits.numbers limits.clauses D (parts_state parts.entry) }
{
    let bars = parts.learned_clauses;
    let passes = parts.learned_cubes;
    let most = tables::CONSTRAINTS;
    let width = limits.numbers;
    if !rows_ok(
        shown,
        Holding::Clauses,
        parts.clauses,
        limits.clauses,
        tables::LITERALS,
    ) {
        return false;
    }
    if !rows_ok(shown, Holding::LearnedClauses, bars, most, width) {
        return false;
    }
    if !rows_ok(shown, Holding::LearnedCubes, passes, most, width) {
        return false;
    }
    records_ok(bars.sizes, crate::cells::count(parts.clauses.sizes))
}
