// Steps 1 to 4 of a visit at the start node, over the state's own tables. The start node has no parent, so nobody learns from what decides
// it: the answer is the verdict alone.
#![tactic(auto)]

ghost use Rattle.std.specs.Prelude.{◌≡◌, length};
ghost use Rattle.qbf.specs.Formula.{Prefix, Node};
ghost use Rattle.tables.specs.Views.{Places, Kinds, Values, rows_of};
ghost use Rattle.search_start.specs.Start.{is_no, is_yes, Concludes};

use dead_clauses::any_dead;
use lent_rows::LentRows;
use literal::ByNumber;
use matches::any_match;
use satisfied::all_satisfied;

pub mod matches; // learned constraints
pub mod satisfied;

// What steps 1 to 4 decide, or that the node is open.
// stays (no plainer): three outcomes of steps 1 to 4, which `Starts` names one by one and both callers match on; node's `Verdict`, of which an Option could hold two, has a third that is none of these
#[derive(Clone, Copy)]
pub enum Start {
    No,
    Yes,
    Open,
}

// Steps 1 and 2. For the verdict it is enough that a clause is dead, whichever is taken.
fn is_no(clauses: LentRows, learned: LentRows, shown: ByNumber, at: usize) -> bool
    ensures { (D : Prefix) (s : Node)
        → Places D shown.entry.places.now
        → Kinds D shown.entry.kinds.now
        → Values D s shown.entry.values.now
        → length s ≡ at
        → result
        ≡ is_no
        D
        s
        (rows_of clauses.entry.width clauses.entry.cells.now clauses.entry.sizes.now)
        (rows_of learned.entry.width learned.entry.cells.now learned.entry.sizes.now) }
{
    if any_dead(clauses, shown.kinds, shown.values) {
        return true;
    }
    any_match(learned, shown, false, at)
}

// Steps 3 and 4.
fn is_yes(clauses: LentRows, cubes: LentRows, shown: ByNumber, at: usize) -> bool
    ensures { (D : Prefix) (s : Node)
        → Places D shown.entry.places.now
        → Values D s shown.entry.values.now
        → length s ≡ at
        → result
        ≡ is_yes
        D
        s
        (rows_of clauses.entry.width clauses.entry.cells.now clauses.entry.sizes.now)
        (rows_of cubes.entry.width cubes.entry.cells.now cubes.entry.sizes.now) }
{
    if all_satisfied(clauses, shown.values) {
        return true;
    }
    any_match(cubes, shown, true, at)
}

// The node has `at` places.
pub fn conclude(
    clauses: LentRows,
    learned: LentRows,
    cubes: LentRows,
    shown: ByNumber,
    at: usize,
) -> Start
    ensures { (D : Prefix) (s : Node)
        → Places D shown.entry.places.now
        → Kinds D shown.entry.kinds.now
        → Values D s shown.entry.values.now
        → length s ≡ at
        → Concludes
        D
        s
        (rows_of clauses.entry.width clauses.entry.cells.now clauses.entry.sizes.now)
        (rows_of learned.entry.width learned.entry.cells.now learned.entry.sizes.now)
        (rows_of cubes.entry.width cubes.entry.cells.now cubes.entry.sizes.now)
        result }
{
    if is_no(clauses, learned, shown, at) {
        return Start::No;
    }
    if is_yes(clauses, cubes, shown, at) {
        return Start::Yes;
    }
    Start::Open
}
