// The numbers of the variables: each is 1 to the limit and stands once. The place of each number.
ghost use Rattle.std.specs.Prelude.{◌≡◌, suc, length};
ghost use Rattle.qbf.specs.Formula.{Limits};
ghost use Rattle.state.specs.Derived.{is_fresh, Placing};

use literal::{Number, cell_at};

fn is_fresh(places: &[u16], limit: usize, number: Number) -> bool
    ensures { result ≡ is_fresh limit places.now number.0 }
{
    let n = number.0;
    if n < 1 {
        return false;
    }
    if n > limit {
        return false;
    }
    cell_at(places, n) == 0
}

// The place of each number, in a table whose content before is free. Refused where a number is not 1 to the limit, or stands twice.
pub fn place_numbers(numbers: &[u16], limit: usize, places: &mut [u16]) -> bool
    requires { length places.old ≡ suc limit }
    ensures { (length places.new ≡ suc limit)
        × ((L : Limits) → L.numbers ≡ limit → Placing L numbers.now result places.new) }
{
    crate::cells::clear(places);
    let count = crate::cells::count(numbers);
    if count > limit {
        return false;
    }
    // stays (no plainer): `numbers.iter().skip(1).take(count)` ends with the table; a place behind its end has number 0, which is refused, and the place is written too
    for i in 0..count {
        let n = crate::cells::entry(numbers, i);
        if !is_fresh(places, limit, Number(n)) {
            return false;
        }
        places[n] = (i + 1) as u16;
    }
    true
}
