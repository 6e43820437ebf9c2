// A state in two lent tables as it was checked: its parts under its own limits.
ghost use Rattle.std.specs.Prelude.{true, suc, ◌<◌};
ghost use Rattle.qbf.specs.Formula.{highest};
ghost use Rattle.state_parts.specs.Layout.{limits_in};
ghost use Rattle.search_calls.specs.Checked.{ShownAt, CheckedOf};

use asking::checked::Checked;
use state_parts::limits::Layout;

// The tables by number are the first cells of longer ones.
// stays (no plainer): `Checked` is of a state however its tables lie, and knows no layout: the two limits are copied where the one becomes the other
pub fn checked<'a>(
    layout: Layout,
    cells: &'a [u16],
    literals: &'a [i16],
    places: &'a [u16; tables::HIGHEST_BY_NUMBER],
    kinds: &'a [u16; tables::HIGHEST_BY_NUMBER],
) -> Checked<'a>
    requires { ShownAt layout cells.now literals.now places.now kinds.now }
    ensures { CheckedOf layout cells.now literals.now result }
{
    let end = layout.numbers + 1;
    Checked {
        parts: layout.parts(cells, literals),
        numbers: layout.numbers,
        clauses: layout.clauses,
        places: &places[..end],
        kinds: &kinds[..end],
    }
}
