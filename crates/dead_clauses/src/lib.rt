// Step 1 of a visit: the dead clauses, in order of adding.
#![tactic(auto)]

ghost use Rattle.std.specs.Prelude.{◌≡◌, ◌≤◌, get_or};
ghost use Rattle.qbf.specs.Formula.{Prefix, Node, any, dead};
ghost use Rattle.tables.specs.Views.{Kinds, Values, rows_of};
ghost use Rattle.dead_clauses.specs.Dead.{lost, NextDead};

use lent_rows::LentRows;
use literal::{TRUE, literal_kind, status_of};

// Whether a literal keeps no hope: not true, and forall where it is open. "In this test a flag counts as exists."
fn is_lost(lit: i16, kinds: &[u16], values: &[u8]) -> bool
    ensures { result ≡ lost kinds.now values.now lit }
{
    match status_of(values, lit) {
        TRUE => false,
        tables::OPEN => literal_kind(kinds, lit) == tables::FORALL,
        _ => true,
    }
}

// The index of the first dead clause from `from` on. A literal that is not lost leaves its clause by the label.
pub fn next_dead(clauses: LentRows, kinds: &[u16], values: &[u8], from: usize) -> Option<usize>
    requires { from ≤ get_or clauses.sizes.now 0 0 }
    ensures { NextDead
        clauses.entry.width
        clauses.entry.cells.now
        clauses.entry.sizes.now
        kinds.now
        values.now
        from
        result }
{
    'clauses: for k in from..clauses.count() {
        for lit in clauses.row(k) {
            if !is_lost(*lit, kinds, values) {
                continue 'clauses;
            }
        }
        return Some(k);
    }
    None
}

// Whether a clause is dead, at whatever node the values show.
pub fn any_dead(clauses: LentRows, kinds: &[u16], values: &[u8]) -> bool
    ensures { (D : Prefix) (s : Node)
        → Kinds D kinds.now
        → Values D s values.now
        → result
        ≡ any (dead D s) (rows_of clauses.entry.width clauses.entry.cells.now clauses.entry.sizes.now) }
{
    next_dead(clauses, kinds, values, 0).is_some()
}
