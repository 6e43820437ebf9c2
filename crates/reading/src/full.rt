// Whether every flag is recorded.
ghost use Rattle.reading.specs.Marking.{FullBy};

use crate::Flags;
use crate::cells::{is_open, number_after};

// The free variables have the first places.
pub fn is_full(values: &[u8], flags: Flags<'_>) -> bool
    ensures { FullBy values.now flags.entry.numbers.now flags.entry.free result }
{
    // stays (no plainer): the clause is of each of the `free` places, and behind the table's end a place's number reads 0; an iterator over the numbers ends with them
    (0..flags.free).all(|i| !is_open(values, number_after(flags.numbers, i)))
}
