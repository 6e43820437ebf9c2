// The limits by which the parts of a state are laid out.
ghost use Rattle.std.specs.Prelude.{◌≤◌};
ghost use Rattle.qbf.specs.Formula.{highest};

// The limits of a state that are not above the highest.
#[derive(Clone, Copy)]
pub struct Layout {
    pub numbers: usize,
    pub clauses: usize,
    pub ghost few_numbers: { numbers ≤ highest.numbers },
    pub ghost few_clauses: { clauses ≤ highest.clauses },
}
