// A state in two lent tables: its own limits in the first two cells, its parts, each a part of one of them, and its check.
#![tactic(auto)]

ghost use Rattle.std.specs.Prelude.{◌≡◌, suc, ◌<◌, length};
ghost use Rattle.qbf.specs.Formula.{highest};
ghost use Rattle.state.specs.Derived.{CheckedUnder};
ghost use Rattle.state_parts.specs.Parts.{parts_under};
ghost use Rattle.state_parts.specs.Layout.{limits_in, CheckedIn};

mod cut;
pub mod initial;
pub mod layout;
pub mod limits;
pub mod parts;

use limits::Layout;
use refusal::Refusal;
use state::parts::Limits;

// The check of the parts that these limits give.
fn check_parts(
    layout: Layout,
    cells: &[u16],
    literals: &[i16],
    places: &mut [u16],
    by_number: &mut [u16],
) -> bool
    requires { (length places.old ≡ suc layout.numbers) × (length by_number.old ≡ suc layout.numbers) }
    ensures { (length places.new ≡ suc layout.numbers)
        × (length by_number.new ≡ suc layout.numbers)
        × CheckedUnder
        (limits_in layout)
        (parts_under (limits_in layout) cells.now literals.now)
        result
        places.new
        by_number.new }
{
    let limits = Limits {
        numbers: layout.numbers,
        clauses: layout.clauses,
    };
    layout
        .parts(cells, literals)
        .check(limits, places, by_number)
}

// The limits of the state; or "22 the state is malformed": they are too high, a table is shorter than they ask, or what stands in them is not well formed.
// The prefix that is read on the way is left in the first cells of the tables by number, which have room for the highest limit; their content before is free.
pub fn check(
    cells: &[u16],
    literals: &[i16],
    places: &mut [u16],
    by_number: &mut [u16],
) -> Result<Layout, Refusal>
    requires { (highest.numbers < length places.old) × (highest.numbers < length by_number.old) }
    ensures { CheckedIn
        cells.now
        literals.now
        result
        places.new
        by_number.new }
{
    let Some(layout) = Layout::read(cells) else {
        return Err(Refusal::Malformed);
    };
    let end = layout.numbers + 1;
    let valid = check_parts(
        layout,
        cells,
        literals,
        &mut places[..end],
        &mut by_number[..end],
    );
    if !valid {
        return Err(Refusal::Malformed);
    }
    Ok(layout)
}
