// The tables of the clauses, to which a call adds, and the rule that it adds.
ghost use Rattle.std.specs.Prelude.{◌≤◌, length};
ghost use Rattle.qbf.specs.Formula.{paper, highest};
ghost use Rattle.tables.specs.Views.{Table};

// Room for that many clauses.
// stays (no plainer): these are written, so they are `&mut`, with room for every clause (`Table`); `lent_rows::LentRows` is read, and any table may be
#[derive(Drop)]
pub struct Clauses<'a> {
    pub most: usize,
    pub cells: &'a mut [i16],
    pub sizes: &'a mut [u16],
    pub ghost low: { most ≤ highest.clauses },
    pub ghost table: { Table paper.literals most cells.now sizes.now },
}

// Literals that are no more than a rule may have.
#[derive(Clone, Copy)]
pub struct Rule<'a> {
    pub lits: &'a [i16],
    pub ghost short: { length lits.now ≤ paper.literals },
}
