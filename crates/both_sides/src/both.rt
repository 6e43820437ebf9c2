// What the verdicts of both sides ask for.
ghost use Rattle.std.specs.Prelude.{◌≡◌};
ghost use Rattle.qbf.specs.Formula.{Quantifier};
ghost use Rattle.tables.specs.Views.{quantifier_code};
ghost use Rattle.node.specs.Node.{mixed_of};
ghost use Rattle.node.specs.Step.{alone};
ghost use Rattle.both_sides.specs.Step.{step_of};

use node::side::is_enough;
use node::{Answer, Verdict};
use search_entry::Source;

// Mixed; the on side's answer; or two constraints of one polarity.
#[derive(Clone, Copy)]
pub enum Step {
    Mixed,
    On,
    Clauses,
    Cubes,
}

// "two Yes give Yes, two No give No, anything else Mixed", unless the on side is enough.
pub fn step_of(first: Verdict, second: Verdict, kind: u16) -> Step
    ensures { (κ : Quantifier) → quantifier_code κ ≡ kind → result ≡ step_of first second (alone second κ) }
{
    match (first, second) {
        (Verdict::Mixed, _) | (_, Verdict::Mixed) => Step::Mixed,
        _ if is_enough(second, kind) => Step::On,
        (Verdict::Yes, Verdict::Yes) => Step::Cubes,
        (Verdict::No, Verdict::No) => Step::Clauses,
        _ => Step::Mixed,
    }
}

pub fn mixed(on: Answer) -> Answer
    ensures { result ≡ mixed_of on }
{
    Answer {
        verdict: Verdict::Mixed,
        source: Source::Area,
        start: 0,
        len: 0,
        budget: on.budget,
        lines: on.lines,
    }
}
