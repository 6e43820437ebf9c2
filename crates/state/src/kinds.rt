// The quantifiers of a state: by place through the level, and the table by number that is derived from them.
ghost use Rattle.std.specs.Prelude.{◌≡◌, length};
ghost use Rattle.qbf.specs.Formula.{Prefix};
ghost use Rattle.qbf.specs.Truth.{free_variables};
ghost use Rattle.qbf.specs.Calls.{free_is_ok};
ghost use Rattle.tables.specs.Views.{Numbers};
ghost use Rattle.state.specs.Derived.{Quantified, KindsFilled, code_for};

use crate::prefix::Variables;
use literal::Place;

// A place that is not declared counts as free.
pub fn kind_at(levels: &[u16], kinds: &[u16], place: Place) -> u16
    ensures { result ≡ code_for levels.now kinds.now place.0 }
{
    let p = place.0;
    if p == 0 {
        return tables::FREE;
    }
    let level = literal::cell_at(levels, p) as usize;
    literal::cell_at(kinds, level)
}

// By number, in a table whose content before is free: a number that is not declared counts as free, and of the others each is written at its place's turn.
pub fn kinds_of(variables: Variables<'_>, table: &mut [u16])
    ensures { KindsFilled
        variables.entry.numbers.now
        variables.entry.levels.now
        variables.entry.kinds.now
        table.old
        table.new }
{
    crate::cells::clear(table);
    let count = crate::cells::count(variables.numbers);
    // stays (no plainer): `numbers.iter().enumerate().skip(1).take(count)` is three steps and a pair for a range and an accessor by place
    for i in 0..count {
        let n = crate::cells::entry(variables.numbers, i);
        let kind = kind_at(variables.levels, variables.kinds, Place(i + 1));
        literal::put(table, n, kind);
    }
}

// The free variables come first.
pub fn free_count(variables: Variables<'_>) -> usize
    ensures { (D : Prefix) →
        Numbers D variables.entry.numbers.now →
        Quantified D variables.entry.levels.now variables.entry.kinds.now →
        result ≡ free_variables D }
{
    let count = crate::cells::count(variables.numbers);
    // stays (proof): with `(0..count).position(|i| kind_at(.., Place(i + 1)) != tables::FREE).unwrap_or(count)` the goal `returns` stays open: that what `unwrap_or` gives
    // is `free_variables D`
    for i in 0..count {
        if kind_at(variables.levels, variables.kinds, Place(i + 1)) != tables::FREE {
            return i;
        }
    }
    count
}

// "flags stay at most 40": so there are where there are no more variables.
pub fn few_free(variables: Variables<'_>) -> bool
    ensures { (D : Prefix) →
        Numbers D variables.entry.numbers.now →
        Quantified D variables.entry.levels.now variables.entry.kinds.now →
        result ≡ free_is_ok D }
{
    if crate::cells::count(variables.numbers) <= tables::MOST_FREE {
        return true;
    }
    free_count(variables) <= tables::MOST_FREE
}
