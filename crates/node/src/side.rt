// What the verdict of one side says at a node.
ghost use Rattle.std.specs.Prelude.{◌≡◌};
ghost use Rattle.qbf.specs.Formula.{Quantifier};
ghost use Rattle.tables.specs.Views.{quantifier_code};
ghost use Rattle.node.specs.Node.{is_of, is_mixed, stored_by};
ghost use Rattle.node.specs.Step.{alone};

use super::Verdict;

// Whether the verdict is Yes, or where `yes` is false whether it is No.
pub fn is_of(v: Verdict, yes: bool) -> bool
    ensures { result ≡ is_of yes v }
{
    match v {
        Verdict::Yes => yes,
        Verdict::No => !yes,
        Verdict::Mixed => false, // it is neither
    }
}

pub fn is_mixed(v: Verdict) -> bool
    ensures { result ≡ is_mixed v }
{
    v == Verdict::Mixed
}

// The learned constraints of the verdict's polarity: clauses for No, cubes for Yes.
pub fn stored<'a>(
    v: Verdict,
    clauses: &'a [u16; tables::CONSTRAINT_CODES],
    cubes: &'a [u16; tables::CONSTRAINT_CODES],
) -> &'a [u16; tables::CONSTRAINT_CODES]
    ensures { result.now ≡ stored_by v clauses.now cubes.now }
{
    match v {
        Verdict::Yes => cubes,
        Verdict::No | Verdict::Mixed => clauses,
    }
}

// "Exists: a Yes goes up"; dually at forall.
pub fn is_enough(v: Verdict, kind: u16) -> bool
    ensures { (κ : Quantifier) → quantifier_code κ ≡ kind → result ≡ alone v κ }
{
    match v {
        Verdict::Yes => kind == tables::EXISTS,
        Verdict::No => kind == tables::FORALL,
        Verdict::Mixed => false,
    }
}
