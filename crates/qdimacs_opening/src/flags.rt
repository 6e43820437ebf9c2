// "Variables up to the header's count that stand in no quantifier line become flags, in rising number"
ghost use Rattle.std.specs.Prelude.{◌≡◌, length};
ghost use Rattle.state_parts.specs.Layout.{limits_in};
ghost use Rattle.qdimacs_opening.specs.Built.{Built, flags_in, flags_as, FlagsReady};

use declaring::declare;
use literal::{Number, cell_at};
use state_parts::limits::Layout;

// The places are those of the quantified variables.
pub fn flag_count(places: &[u16], variables: usize) -> usize
    ensures { result ≡ length (flags_in places.now variables) }
{
    let mut count = 0;
    // stays (no plainer): `places.iter().skip(1).take(variables)` ends with the table; a number behind its end has place 0, by the definition
    for i in 0..variables {
        if cell_at(places, i + 1) == 0 {
            count += 1;
        }
    }
    count
}

// stays (form): the kind is the number of the flat table of kinds
pub fn declare_flags(layout: Layout, cells: &mut [u16], places: &[u16], variables: usize, kind: u16)
    requires { FlagsReady (limits_in layout) cells.old places.now variables kind }
    ensures { Built
        (limits_in layout)
        cells.old
        (flags_as kind places.now variables)
        cells.new }
{
    for i in 0..variables {
        let n = i + 1;
        if cell_at(places, n) == 0 {
            let _ = declare(layout, cells, Number(n), kind);
        }
    }
}
