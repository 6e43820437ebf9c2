// What a search is asked.
ghost use Rattle.std.specs.Prelude.{suc, ◌≤◌};
ghost use Rattle.qbf.specs.Formula.{most_free};
ghost use Rattle.qbf.specs.Ceiling.{highest_ceiling};

// The place, the quantifier and the value of each number at the node of `at` places that it starts at; how many variables are free; whether its lines are
// Yes nodes or No nodes; and its budget, one more than the visits that it may make.
// stays (no plainer): `open_run::asked::Asked` has the same three tables and count, of a search that lends clauses and neither a place to start at nor lines
#[derive(Clone, Copy)]
pub struct Task<'a> {
    pub places: &'a [u16],
    pub kinds: &'a [u16],
    pub values: &'a [u8],
    pub at: usize,
    pub free: usize,
    pub yes: bool,
    pub budget: u64,
    pub ghost few: { free ≤ most_free },
    pub ghost bounded: { budget ≤ suc highest_ceiling },
}
