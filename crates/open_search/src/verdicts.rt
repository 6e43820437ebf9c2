// The verdicts of a node's sides, and what a visit hands up.
ghost use Rattle.std.specs.Prelude.{◌≡◌, ◌-◌};
ghost use Rattle.qbf.specs.Formula.{Quantifier};
ghost use Rattle.tables.specs.Views.{quantifier_code};
ghost use Rattle.open_search.specs.Verdicts.{agreed, joined_of};

use node::Verdict;

// The verdict, and the budget that is left. The budget is one more than the visits that may still be made: a search that ends leaves 1 at least, and one
// that was stopped leaves 0.
#[derive(Clone, Copy)]
pub struct Finding {
    pub verdict: Verdict,
    pub budget: u64,
}

pub fn found(verdict: Verdict, budget: u64) -> Finding
    ensures { result ≡ record { verdict = verdict; budget = budget } }
{
    Finding { verdict, budget }
}

// "A visit counts one."
pub fn counted(budget: u64) -> u64
    ensures { result ≡ budget - 1 }
{
    budget.saturating_sub(1)
}

// "two Yes give Yes, two No give No, anything else Mixed"
fn agreed(first: Verdict, second: Verdict) -> Verdict
    ensures { result ≡ agreed first second }
{
    match (first, second) {
        (Verdict::Yes, Verdict::Yes) => Verdict::Yes,
        (Verdict::No, Verdict::No) => Verdict::No,
        _ => Verdict::Mixed,
    }
}

// The node's verdict by both sides: "A flag node visits both"; elsewhere "the on side decides".
pub fn joined(kind: u16, first: Verdict, second: Verdict) -> Verdict
    ensures { (κ : Quantifier) → quantifier_code κ ≡ kind → result ≡ joined_of κ first second }
{
    let free = kind == tables::FREE;
    if free {
        return agreed(first, second);
    }
    second
}
