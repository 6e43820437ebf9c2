// Why a variable is not declared. "3 number not 1 to 40" or to the own limit, "4 declared twice", 33 for one flag more than there may be.
ghost use Rattle.std.specs.Prelude.{◌≡◌, true, [], not, eqb, ◌&&◌, leb};
ghost use Rattle.qbf.specs.Formula.{Limits, Prefix, most_free, is_free, place_of};
ghost use Rattle.qbf.specs.Truth.{free_variables};
ghost use Rattle.qbf.specs.Calls.{numbers_are_ok};
ghost use Rattle.tables.specs.Views.{Numbers};
ghost use Rattle.refusal.specs.Refusal.{fault_in};
ghost use Rattle.state.specs.Reading.{quantifier_of, prefix_of};
ghost use Rattle.state.specs.Declare.{SoundUnder, declare_fault};

use literal::Number;
use refusal::Refusal;
use state::kinds::free_count;
use state::prefix::Variables;

// Whether a number is one of those that the places have. No table by number is made: a short prefix is looked through faster than one is cleared.
fn is_declared(numbers: &[u16], number: Number) -> bool
    ensures { (L : Limits) (D : Prefix) →
        Numbers D numbers.now →
        numbers_are_ok L [] D ≡ true →
        result ≡ not (eqb (place_of D number.0) 0) }
{
    let count = state::cells::count(numbers);
    // stays (no plainer): `numbers.iter().skip(1).take(count)` ends with the table; a place behind its end has number 0, by the definition
    for i in 0..count {
        if state::cells::entry(numbers, i) == number.0 {
            return true;
        }
    }
    false
}

// "flags stay at most 40"
// stays (form): the kind is the number of the flat table of kinds
fn is_crowded(variables: Variables<'_>, kind: u16) -> bool
    ensures { (L : Limits) →
        SoundUnder
        L
        variables.entry.numbers.now
        variables.entry.levels.now
        variables.entry.kinds.now →
        result
        ≡ (is_free (quantifier_of kind)
        && leb
        most_free
        (free_variables
        (prefix_of
        variables.entry.numbers.now
        variables.entry.levels.now
        variables.entry.kinds.now))) }
{
    if kind != tables::FREE {
        return false;
    }
    tables::MOST_FREE <= free_count(variables)
}

// stays (form): the kind is the number of the flat table of kinds
pub fn fault_of(
    variables: Variables<'_>,
    limit: usize,
    number: Number,
    kind: u16,
) -> Result<(), Refusal>
    ensures { (L : Limits) →
        L.numbers ≡ limit →
        SoundUnder
        L
        variables.entry.numbers.now
        variables.entry.levels.now
        variables.entry.kinds.now →
        declare_fault
        L
        (prefix_of
        variables.entry.numbers.now
        variables.entry.levels.now
        variables.entry.kinds.now)
        (quantifier_of kind)
        number.0
        ≡ fault_in result }
{
    let n = number.0;
    if n < 1 {
        return Err(Refusal::NumberRange);
    }
    if n > limit {
        return Err(Refusal::NumberRange);
    }
    if is_declared(variables.numbers, number) {
        return Err(Refusal::DeclaredTwice);
    }
    if is_crowded(variables, kind) {
        return Err(Refusal::TooManyFree);
    }
    Ok(())
}
