// What is recorded of each place, from what is recorded of each number.
ghost use Rattle.std.specs.Prelude.{◌<◌, length};
ghost use Rattle.reading.specs.Placed.{Placed};

use crate::cells::number_after;
use literal::{byte_at, put};

// The free variables have the first places.
pub fn by_place<'a>(recorded: &mut [u8], values: &'a [u8], numbers: &'a [u16], free: usize)
    requires { free < length recorded.old }
    ensures { Placed
        values.now
        numbers.now
        free
        recorded.old
        recorded.new }
{
    // stays (no plainer): `numbers.iter().skip(1).take(free)` ends with the table, and the clause is of each of the `free` places: behind the end a place's number reads 0
    for i in 0..free {
        put(recorded, i + 1, byte_at(values, number_after(numbers, i).0));
    }
}
