// The tables of a state that a search reads.
ghost use Rattle.std.specs.Prelude.{◌≤◌, get_or};
ghost use Rattle.qbf.specs.Formula.{paper, highest};
ghost use Rattle.lent_rows.specs.Held.{Held};

use lent_rows::LentRows;

// The number of each place's variable, the clauses, and the learned constraints of each polarity in rows of as many cells as the state has numbers.
// stays (no plainer): `state::parts::Parts` has levels and quantifiers beside these, which no search reads, and says nothing of what stands in its tables
#[derive(Clone, Copy)]
pub struct Given<'a> {
    pub numbers: &'a [u16],
    pub clauses: LentRows<'a>,
    pub learned_clauses: LentRows<'a>,
    pub learned_cubes: LentRows<'a>,
    pub ghost few: { get_or numbers.now 0 0 ≤ highest.numbers },
    pub ghost short: { clauses.width ≤ paper.literals },
    pub ghost narrow: { (learned_clauses.width ≤ highest.numbers) × (learned_cubes.width ≤ highest.numbers) },
    pub ghost clauses_held: { Held clauses.width highest.clauses clauses.cells.now clauses.sizes.now },
    pub ghost learned_held: { Held learned_clauses.width paper.constraints learned_clauses.cells.now learned_clauses.sizes.now
        × Held learned_cubes.width paper.constraints learned_cubes.cells.now learned_cubes.sizes.now },
}
