// A state that was checked.
ghost use Rattle.std.specs.Prelude.{◌≡◌, true, ◌≤◌, get_or};
ghost use Rattle.qbf.specs.Formula.{paper, highest, most_free};
ghost use Rattle.qbf.specs.Truth.{free_variables};
ghost use Rattle.tables.specs.Views.{Places, Kinds};
ghost use Rattle.state.specs.Reading.{own, accepted, prefix_in};
ghost use Rattle.state.specs.Lent.{parts_state};

use state::kinds::free_count;
use state::parts::Parts;

// Its tables, its limits for numbers and clauses, and the tables by number that show its prefix.
#[derive(Clone, Copy)]
pub struct Checked<'a> {
    pub parts: Parts<'a>,
    pub numbers: usize,
    pub clauses: usize,
    pub places: &'a [u16],
    pub kinds: &'a [u16],
    pub ghost few_numbers: { numbers ≤ highest.numbers },
    pub ghost few_clauses: { clauses ≤ highest.clauses },
    pub ghost accepted: { accepted (own numbers clauses) (parts_state parts) ≡ true },
    pub ghost placed: { Places (prefix_in (parts_state parts)) places.now },
    pub ghost kinded: { Kinds (prefix_in (parts_state parts)) kinds.now },
}

impl<'a> Checked<'a> {
    // How many variables are free.
    pub fn free(self) -> usize
        ensures { (result ≡ free_variables (prefix_in (parts_state self.entry.parts)))
            × (result ≤ most_free)
            × (result ≤ get_or self.entry.parts.variables.numbers.now 0 0) }
    {
        free_count(self.parts.variables)
    }
}
