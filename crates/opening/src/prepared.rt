// The state that a text is opened onto, and the one that a refused text leaves.
ghost use Rattle.std.specs.Prelude.{◌≡◌};
ghost use Rattle.qbf.specs.Formula.{capped};
ghost use Rattle.state_parts.specs.Layout.{limits_in};
ghost use Rattle.opening.specs.Opened.{WholeTold, PreparedAt, ClosedFor};

use crate::text::RefusedAt;
use literal::put;
use state::parts::Limits;
use state_parts::initial::initial;
use state_parts::limits::Layout;

// One number more than any state may have.
const TOO_HIGH: u16 = tables::HIGHEST_BY_NUMBER as u16;

// Whether both tables hold every part.
fn is_whole(layout: Layout, cells: &[u16], literals: &[i16]) -> bool
    ensures { WholeTold (limits_in layout) cells.now literals.now result }
{
    let cell_count = layout.learned_cube_sizes_at() + tables::CONSTRAINT_SIZES;
    if cells.len() < cell_count {
        return false;
    }
    let literal_count = layout.learned_cubes_at() + layout.learned_cells();
    literal_count <= literals.len()
}

// "capped at these"
fn layout_of(limits: Limits) -> Layout
    ensures { limits_in result ≡ capped limits.numbers limits.clauses }
{
    Layout {
        numbers: limits.numbers.min(tables::HIGHEST_NUMBERS),
        clauses: limits.clauses.min(tables::HIGHEST_CLAUSES),
    }
}

// The empty state under the lesser of each limit and the highest; nothing where a table is too short for it. Of the literals no cell is written.
pub fn prepare(limits: Limits, cells: &mut [u16], literals: &[i16]) -> Option<Layout>
    ensures { PreparedAt
        (capped limits.numbers limits.clauses)
        cells.old
        literals.now
        result
        cells.new }
{
    let layout = layout_of(limits);
    let whole = is_whole(layout, cells, literals);
    initial(cells, limits.numbers, limits.clauses);
    whole.then_some(layout)
}

// "A refused text opens no book": its limit for numbers becomes one that no state may have, so that every call on it is refused with 22.
pub fn closed(cells: &mut [u16], read: Result<(), RefusedAt>) -> Result<(), RefusedAt>
    ensures same { result ≡ read }
    ensures left { ClosedFor read cells.old cells.new }
{
    if read.is_err() {
        put(cells, 0, TOO_HIGH);
    }
    read
}
