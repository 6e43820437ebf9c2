// The value of a side's last place.
ghost use Rattle.std.specs.Prelude.{◌≡◌, true, false, ◌≤◌, length, get_or};
ghost use Rattle.qbf.specs.Formula.{highest};
ghost use Rattle.tables.specs.Codes.{code_at, given};
ghost use Rattle.tables.specs.Shelves.{code_count};

use coding::statuses::{Was, give};

// The place is given the value. How long the table is follows of its type here, and not where it is lent to a field of a struct.
// stays (no plainer): `usize ≤ highest.numbers` is what `give` asks of the place alone, and is handed on to it
pub fn give_value(statuses: &mut [u8; tables::CODES], place: usize, value: u8) -> Was
    requires { place ≤ highest.numbers }
    ensures given { (statuses.new ≡ given place value statuses.old)
        × (result.negative ≡ get_or statuses.old (code_at place false) 0)
        × (result.positive ≡ get_or statuses.old (code_at place true) 0) }
    ensures long { length statuses.old ≡ code_count }
{
    give(statuses, place, value)
}
