// The finder of step 1: "the dead rule whose reduced form has the lowest last place, the earliest added among equals".
#![tactic(auto)]

ghost use Rattle.std.specs.Prelude.{◌≡◌};
ghost use Rattle.qbf.specs.Formula.{Prefix};
ghost use Rattle.qbf.specs.Learning.{reach};
ghost use Rattle.tables.specs.Views.{Places, Kinds};
ghost use Rattle.lowest_dead.specs.Found.{lower_of, LowestIn};

use constraint::mention::last_place;
use constraint::reduction::reduced_len;
use dead_clauses::next_dead;
use lent_rows::LentRows;
use literal::ByNumber;

// A dead clause, by its index, and how far it reaches.
#[derive(Clone, Copy)]
pub struct Lowest {
    pub at: usize,
    pub reach: usize,
}

// How far a clause reaches: the last place of its reduced form.
fn reach_of(lits: &[i16], places: &[u16], kinds: &[u16]) -> usize
    ensures { (D : Prefix) → Places D places.now → Kinds D kinds.now → result ≡ reach D lits.now }
{
    let n = reduced_len(lits, kinds, false);
    last_place(&lits[..n], places)
}

// A dead clause beside the lowest one before it: the later of two equals does not count.
fn lower(best: Option<Lowest>, next: Lowest) -> Lowest
    ensures { result ≡ lower_of best next }
{
    match best {
        Some(best) if best.reach <= next.reach => best,
        _ => next,
    }
}

// The index of the clause that step 1 takes, at whatever node the values show; none where no clause is dead.
pub fn lowest_dead(clauses: LentRows, shown: ByNumber) -> Option<usize>
    ensures { LowestIn
        clauses.entry.width
        clauses.entry.cells.now
        clauses.entry.sizes.now
        shown.entry.places.now
        shown.entry.kinds.now
        shown.entry.values.now
        result }
{
    let mut best: Option<Lowest> = None;
    let mut from = 0;
    // stays (no plainer): each search goes on behind the clause that the last one found
    while let Some(k) = next_dead(clauses, shown.kinds, shown.values, from) {
        let reach = reach_of(clauses.row(k), shown.places, shown.kinds);
        best = Some(lower(best, Lowest { at: k, reach }));
        from = k + 1;
    }
    best.map(|lowest| lowest.at)
}
