// What a plain search is asked.
ghost use Rattle.open_run.specs.OpenRun.{Ready};

// The tables of a formula, and the values by number of a reading of its free variables, some of them open.
// stays (no plainer): `searching::task::Task` has three of these tables and `free` too; it starts at a node and is searched on a state, where this lends clauses
#[derive(Clone, Copy)]
pub struct Asked<'a> {
    pub numbers: &'a [u16],
    pub clauses: &'a [i16],
    pub clause_sizes: &'a [u16],
    pub places: &'a [u16],
    pub kinds: &'a [u16],
    pub values: &'a [u8],
    pub free: usize,
    pub ghost ready: { Ready numbers.now clauses.now clause_sizes.now free },
}
