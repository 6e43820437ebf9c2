// "Reducing a bar drops literals from the end, by place, while they are forall; reducing a pass, while they are exists.
// A flag is never dropped."
ghost use Rattle.std.specs.Prelude.{◌≡◌, ◌≤◌, length, take};
ghost use Rattle.qbf.specs.Formula.{Prefix, place, quantifier_at};
ghost use Rattle.qbf.specs.Learning.{dropped, reduce};
ghost use Rattle.tables.specs.Views.{Kinds};

use literal::{drops, kept_len, literal_kind};

fn is_dropped(lit: i16, kinds: &[u16], cube: bool) -> bool
    ensures { (D : Prefix) → Kinds D kinds.now → result ≡ dropped cube (quantifier_at D (place D lit)) }
{
    drops(literal_kind(kinds, lit), cube)
}

// How many of the literals are left.
pub fn reduced_len(lits: &[i16], kinds: &[u16], cube: bool) -> usize
    ensures { (result ≤ length lits.now)
        × ((D : Prefix) → Kinds D kinds.now → take result lits.now ≡ reduce D cube lits.now) }
{
    kept_len(lits, |lit| is_dropped(lit, kinds, cube))
}
