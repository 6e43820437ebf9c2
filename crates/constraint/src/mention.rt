// "Its last place is then that of its last literal, 0 if empty".
ghost use Rattle.std.specs.Prelude.{◌≡◌};
ghost use Rattle.qbf.specs.Formula.{Prefix};
ghost use Rattle.qbf.specs.Learning.{last_place};
ghost use Rattle.tables.specs.Views.{Places};

use literal::literal_place;

pub fn last_place(lits: &[i16], places: &[u16]) -> usize
    ensures { (D : Prefix) → Places D places.now → result ≡ last_place D lits.now }
{
    match lits.last() {
        Some(last) => literal_place(places, *last),
        None => 0,
    }
}
