// The flags that a query names: each is a free variable, and is named once.
ghost use Rattle.std.specs.Prelude.{◌≡◌};
ghost use Rattle.reading.specs.Marking.{barred, MarkedAs, NamedAs};

use crate::Flags;
use crate::cells::is_open;
use literal::{literal_place, number_of, put};
use refusal::Refusal;

// "8 a query names a non-flag, or a flag twice"; "A number given both as on and as off is 8."
fn is_barred(flags: Flags<'_>, values: &[u8], lit: i16) -> bool
    ensures { result ≡ barred flags.entry.places.now flags.entry.free values.now lit }
{
    let negative = lit < 0;
    if negative {
        return true;
    }
    let place = literal_place(flags.places, lit);
    if place == 0 {
        return true;
    }
    let bound = place > flags.free;
    if bound {
        return true;
    }
    !is_open(values, number_of(lit))
}

// Records a named flag.
fn mark(values: &mut [u8], flags: Flags<'_>, lit: i16, value: u8) -> Result<(), Refusal>
    ensures { MarkedAs flags.entry.places.now flags.entry.free value values.old lit result values.new }
{
    if is_barred(flags, values, lit) {
        return Err(Refusal::NotFree);
    }
    put(values, number_of(lit).0, value);
    Ok(())
}

// All of them, up to the first that may not be named.
pub fn mark_all(
    values: &mut [u8],
    flags: Flags<'_>,
    literals: &[i16],
    value: u8,
) -> Result<(), Refusal>
    ensures { NamedAs flags.entry.places.now flags.entry.free value values.old literals.now result values.new }
{
    for lit in literals {
        mark(values, flags, *lit, value)?;
    }
    Ok(())
}
