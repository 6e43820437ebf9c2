// "The level is the index, from 1, of a maximal run of one quantifier kind; a flag has level 0." The levels of a state are those
// that its quantifiers give, and its free variables come first.
ghost use Rattle.std.specs.Prelude.{◌≡◌, ◌≤◌};
ghost use Rattle.qbf.specs.Formula.{Limits, forall, level_beside};
ghost use Rattle.tables.specs.Views.{quantifier_code};
ghost use Rattle.state.specs.Reading.{quantifier_of};
ghost use Rattle.state.specs.Derived.{step_is_ok, levels_are_ok};

use crate::prefix::Variables;
use literal::Level;

// The level of a place, next to one of the level and the quantifier given first.
// stays (form): `u16 ≤ quantifier_code forall` is of a number that is a cell of the flat tables, handed on as it is
pub fn level_beside(level: u16, beside: u16, kind: u16) -> Level
    requires { (beside ≤ quantifier_code forall) × (kind ≤ quantifier_code forall) }
    ensures { result.0 ≡ level_beside level (quantifier_of beside) (quantifier_of kind) }
{
    if kind == tables::FREE {
        return Level(0);
    }
    if kind == beside {
        Level(level as usize)
    } else {
        Level(level as usize + 1)
    }
}

fn step_ok(level: u16, beside: u16, next: u16, kind: u16) -> bool
    requires { beside ≤ quantifier_code forall }
    ensures { result ≡ step_is_ok level beside next kind }
{
    if kind > tables::FORALL {
        return false;
    }
    let given = level_beside(level, beside, kind);
    if given.0 != next as usize {
        return false;
    }
    if beside == tables::FREE {
        return true;
    }
    kind != tables::FREE
}

pub fn levels_ok(variables: Variables<'_>, limit: usize) -> bool
    ensures { (L : Limits) →
        L.numbers ≡ limit →
        result ≡ levels_are_ok
        L
        variables.entry.numbers.now
        variables.entry.levels.now
        variables.entry.kinds.now }
{
    let count = crate::cells::count(variables.numbers);
    if count > limit {
        return false;
    }
    let mut level: u16 = 0;
    let mut beside = tables::FREE;
    // stays (no plainer): `levels.iter().skip(1).take(count)` ends with the table; a place behind its end has level 0 and is judged as any other, by the clause
    for i in 0..count {
        let next = crate::cells::cell_after(variables.levels, i);
        if next as usize > limit {
            return false;
        }
        let kind = literal::cell_at(variables.kinds, next as usize);
        if !step_ok(level, beside, next, kind) {
            return false;
        }
        level = next;
        beside = kind;
    }
    true
}
