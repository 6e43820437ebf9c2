// Step 3, first half: the clauses that are satisfied at the node are those of its parent and those that the value given last satisfies. The place
// is marked where there is one more.
ghost use Rattle.std.specs.Prelude.{◌≡◌, List, ℕ, suc, ◌-◌, ◌*◌, ◌≤◌, ◌<◌, length, set};
ghost use Rattle.bitset.specs.Rows.{Unites, row};
ghost use Rattle.qbf.specs.Formula.{highest, Prefix, Clause, Node, all, satisfied};
ghost use Rattle.tables.specs.Codes.{sign};
ghost use Rattle.tables.specs.Sets.{ClauseSets, Descended, RowsKept, satisfying_row};
ghost use Rattle.inner.specs.Inner.{LastGiven, Entered};

use crate::Given;
use crate::union::unite_blocks;
use bitset::rows::{United, unite};
use search_entry::Trail;

// The mark of a place.
// stays (no plainer): `usize ≤ highest.numbers` is asked of a place alone: `Given` and `Depth` keep more than that, a code or a row's words, and `literal::Place` is of any limit and keeps
// no fact; a struct of one number that did would be made at each call and opened at the index
pub fn mark(marks: &mut [u8; tables::HIGHEST_BY_NUMBER], at: usize, fresh: bool)
    requires { at ≤ highest.numbers }
    ensures { (marks.new ≡ set marks.old at (sign fresh)) × (length marks.old ≡ suc highest.numbers) }
{
    marks[at] = fresh as u8;
}

// The clauses that the value given last satisfies.
fn satisfying_row<'a>(sets: &'a [u64; tables::CLAUSE_SETS], g: Given) -> &'a [u64]
    ensures { (result.now ≡ row sets.now (satisfying_row g.words g.code) g.words) × (length result.now ≡ g.words) }
{
    let from = g.code as usize * 2 * g.words;
    let end = from + g.words;
    &sets[from..end]
}

// The node's row: its parent's, united with the clauses that the value given last satisfies.
#[inline(always)] // a part of an open search's visit: handed over by a call, what was given last lies in memory
pub fn row_down<'a>(
    sets: &'a [u64; tables::CLAUSE_SETS],
    sat: &mut [u64; tables::SATISFIED],
    g: Given,
) -> United
    ensures { Unites
        ((g.at - 1) * g.words)
        (g.at * g.words)
        sets.now
        (satisfying_row g.words g.code)
        g.words
        sat.old
        sat.new
        result.all
        result.fresh }
{
    let by = satisfying_row(sets, g);
    let (from, to) = ((g.at - 1) * g.words, g.at * g.words);
    let whole = by.len() % tables::BLOCK == 0;
    if whole {
        return unite_blocks(sat, from, to, by);
    }
    unite(sat, from, to, by)
}

// The node's row and mark; whether every clause is satisfied there.
#[inline(never)] // in the visit of the search that learns its words would lie on the stack of each level
pub fn step_down<'a>(sets: &'a [u64; tables::CLAUSE_SETS], trail: &mut Trail, g: Given) -> bool
    ensures rows_kept { RowsKept g.at g.words trail.old.sat trail.new.sat trail.old.marks trail.new.marks }
    ensures descended { (D : Prefix) (R : List Clause) (s : Node) (k : ℕ)
        → LastGiven s g.at g.code
        → ClauseSets D R g.words sets.now
        → Entered D s R g.words trail.old.sat trail.old.marks k
        → Descended D s R g.words trail.new.sat trail.new.marks g.at × (result ≡ all (satisfied D s) R) }
{
    let step = row_down(sets, &mut trail.sat, g);
    mark(&mut trail.marks, g.at, step.fresh);
    step.all
}
