// The arguments of a query: "From now on a query gives the flags that are on and those that are off, and the rest are open."
#![tactic(auto)]

mod cells;
mod full;
mod named;
pub mod placed; // the reading by place

ghost use Rattle.qbf.specs.Formula.{Limits, Prefix};
ghost use Rattle.reading.specs.Reading.{Ready, ReadAs};

use crate::full::is_full;
use crate::named::mark_all;
use refusal::Refusal;

// The flags of a state are its free variables, which have the first places.
#[derive(Clone, Copy)]
pub struct Flags<'a> {
    // of the variable at each place
    pub numbers: &'a [u16],
    // of each number
    pub places: &'a [u16],
    pub free: usize,
}

// Whether the arguments name all flags; or their refusal, where one names no flag, or a flag twice. What is recorded of each variable is written into the
// lent values, which are all open.
pub fn read(flags: Flags<'_>, values: &mut [u8], on: &[i16], off: &[i16]) -> Result<bool, Refusal>
    ensures { (L : Limits)
        (D : Prefix)
        → Ready L D flags.entry.free flags.entry.numbers.now flags.entry.places.now values.old
        → ReadAs D on.now off.now result values.new }
{
    mark_all(values, flags, on, tables::ON)?;
    mark_all(values, flags, off, tables::OFF)?;
    let full = is_full(values, flags);
    Ok(full)
}
