// The prefix of a state: whether it is well formed, and the tables by number that show it.
ghost use Rattle.std.specs.Prelude.{◌≡◌, suc, length};
ghost use Rattle.qbf.specs.Formula.{Limits};
ghost use Rattle.state.specs.Derived.{Shown};

// The number and the level of each place, and the quantifier of each level.
#[derive(Clone, Copy)]
pub struct Variables<'a> {
    pub numbers: &'a [u16],
    pub levels: &'a [u16],
    pub kinds: &'a [u16],
}

// The tables by number have a cell for each number up to the limit, and one more; their content before is free.
pub fn read_prefix(
    variables: Variables<'_>,
    limit: usize,
    places: &mut [u16],
    by_number: &mut [u16],
) -> bool
    requires { (length places.old ≡ suc limit) × (length by_number.old ≡ suc limit) }
    ensures { (L : Limits) →
        L.numbers ≡ limit →
        Shown
        L
        variables.entry.numbers.now
        variables.entry.levels.now
        variables.entry.kinds.now
        result
        places.new
        by_number.new }
{
    let placed = crate::numbers::place_numbers(variables.numbers, limit, places);
    if placed {
        crate::kinds::kinds_of(variables, by_number);
        return crate::levels::levels_ok(variables, limit);
    }
    false
}
