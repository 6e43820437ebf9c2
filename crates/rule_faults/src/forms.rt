// The refusals of an exactly-one form, in their order, under any limits.
ghost use Rattle.std.specs.Prelude.{◌≡◌, ◌≤◌};
ghost use Rattle.qbf.specs.Formula.{paper, Prefix};
ghost use Rattle.qbf.specs.One.{one_count};
ghost use Rattle.tables.specs.Views.{Places};
ghost use Rattle.refusal.specs.Refusal.{fault_in};
ghost use Rattle.state_parts.specs.Layout.{limits_in};
ghost use Rattle.rule_faults.specs.Faults.{one_fault_under};

use crate::refusals::judge_literals;
use refusal::Refusal;
use state_parts::limits::Layout;

// "Fewer than two literals or more than 16 is 7"
const FEWEST: usize = 2;

// How many rules n literals make.
fn one_count(n: usize) -> usize
    requires { (1 ≤ n) × (n ≤ paper.literals) }
    ensures { result ≡ one_count n }
{
    1 + n * (n - 1) / 2
}

// "7, in this form before 20", which "counts them together" with the clauses that stand
pub fn judge_form(
    limits: Layout,
    standing: u16,
    lits: &[i16],
    places: &[u16],
) -> Result<(), Refusal>
    ensures { (D : Prefix) →
        Places D places.now →
        fault_in result ≡ one_fault_under (limits_in limits) standing D lits.now }
{
    if lits.len() < FEWEST || lits.len() > tables::LITERALS {
        return Err(Refusal::RuleLength);
    }
    let count = standing as usize;
    if limits.clauses < count + one_count(lits.len()) {
        return Err(Refusal::RulesFull);
    }
    judge_literals(limits, lits, places)
}
