// The refusals of a rule, in their order, under any limits.
ghost use Rattle.std.specs.Prelude.{◌≡◌, [], false, get_or};
ghost use Rattle.qbf.specs.Formula.{Prefix};
ghost use Rattle.qbf.specs.Calls.{literal_fault};
ghost use Rattle.tables.specs.Views.{Places};
ghost use Rattle.refusal.specs.Refusal.{fault_in};
ghost use Rattle.state_parts.specs.Layout.{limits_in};
ghost use Rattle.rule_faults.specs.Faults.{number_fault, fault_under};

use literal::Number;
use refusal::Refusal;
use state_parts::limits::Layout;

// "3 number not 1 to 40 (0 and -32768 too)", where the limit is 40; 5 not declared, 6 twice: the literal with this number, where those are named that stand before it.
fn judge_number(
    number: Number,
    most: usize,
    places: &[u16],
    named: &[bool; tables::HIGHEST_BY_NUMBER],
) -> Result<(), Refusal>
    ensures { fault_in result ≡ number_fault most number.0 (get_or places.now number.0 0) (get_or named.now number.0 false) }
{
    let n = number.0;
    if n < 1 || n > most {
        return Err(Refusal::NumberRange);
    }
    if literal::cell_at(places, n) == 0 {
        return Err(Refusal::Undeclared);
    }
    if literal::cell_or(named, n, false) {
        return Err(Refusal::Repeated);
    }
    Ok(())
}

// "each number from the left"
pub fn judge_literals(limits: Layout, lits: &[i16], places: &[u16]) -> Result<(), Refusal>
    ensures { (D : Prefix) →
        Places D places.now →
        fault_in result ≡ literal_fault (limits_in limits) D [] lits.now }
{
    let mut named = [false; tables::HIGHEST_BY_NUMBER];
    for lit in lits {
        let number = literal::number_of(*lit);
        judge_number(number, limits.numbers, places, &named)?;
        named[number.0] = true;
    }
    Ok(())
}

// "Order: .. 20, 7, then each number from the left 3, .. 5, 6 .. The first fault decides." That many clauses stand.
pub fn judge_rule(
    limits: Layout,
    standing: u16,
    lits: &[i16],
    places: &[u16],
) -> Result<(), Refusal>
    ensures { (D : Prefix) →
        Places D places.now →
        fault_in result ≡ fault_under (limits_in limits) standing D lits.now }
{
    let count = standing as usize;
    if count >= limits.clauses {
        return Err(Refusal::RulesFull);
    }
    if lits.len() < 1 || lits.len() > tables::LITERALS {
        return Err(Refusal::RuleLength);
    }
    judge_literals(limits, lits, places)
}
