// The formula that clauses are judged and added on: "flags .. in rising number", then the quantifier lines in their order.
ghost use Rattle.std.specs.Prelude.{◌≡◌, ◌≤◌, List, ℕ, ℤ, length};
ghost use Rattle.state_parts.specs.Layout.{limits_in};
ghost use Rattle.state_parts.specs.Parts.{clause_sizes_at};
ghost use Rattle.declaring.specs.Declaring.{numbers_in, levels_in, kinds_in};
ghost use Rattle.opening.specs.Standing.{formula_at};
ghost use Rattle.qbf.specs.Formula.{Prefix};
ghost use Rattle.qdimacs_opening.specs.Built.{crowd_for, kind_for, Regroupable, Regrouped};
ghost use Rattle.qdimacs_opening.specs.Stands.{Grouped, CompletedAt};

use crate::flags::{declare_flags, flag_count};
use crate::groups::declare_groups;
use state::numbers::place_numbers;
use state::prefix::Variables;
use state_parts::layout::NUMBERS_AT;
use state_parts::limits::Layout;

// stays (proof): `literals : List ℤ` is the table of what is asked of both, which `complete` is not lent
// The limits and the tables by place.
const PREFIX_CELLS: usize = NUMBERS_AT + tables::HIGHEST_BY_NUMBER * 3;

// How many flags there are, where they are more than may be.
fn crowd_of(flags: usize) -> usize
    ensures { result ≡ crowd_for flags }
{
    if flags > tables::MOST_FREE {
        return flags;
    }
    0
}

// stays (form): the kind is the number of the flat table of kinds
fn flag_kind(crowd: usize) -> u16
    ensures { result ≡ kind_for crowd }
{
    if crowd > 0 {
        return tables::EXISTS;
    }
    tables::FREE
}

// The prefix is made anew. More flags than may be are declared as variables of exists: a text with so many is refused at its end whatever its clauses are,
// and until then these are judged by which numbers are declared, and by how many clauses stand.
fn regroup(
    layout: Layout,
    cells: &mut [u16],
    groups: Variables<'_>,
    places: &[u16],
    variables: usize,
) -> usize
    requires { (D : Prefix) × Regroupable
        (limits_in layout)
        D
        cells.old
        groups.numbers.now
        groups.levels.now
        groups.kinds.now
        places.now
        variables }
    ensures { (D : Prefix) →
        Regroupable
        (limits_in layout)
        D
        cells.old
        groups.entry.numbers.now
        groups.entry.levels.now
        groups.entry.kinds.now
        places.now
        variables →
        Regrouped (limits_in layout) D cells.old variables result cells.new }
{
    let crowd = crowd_of(flag_count(places, variables));
    cells[NUMBERS_AT] = 0;
    declare_flags(layout, cells, places, variables, flag_kind(crowd));
    declare_groups(layout, cells, groups);
    crowd
}

// The tables by place, copied into cells whose content is free, so that those of the state can be written.
fn set_aside<'a>(
    layout: Layout,
    cells: &[u16],
    before: &'a mut [u16; PREFIX_CELLS],
) -> Variables<'a>
    requires { clause_sizes_at (limits_in layout) ≤ length cells.now }
    ensures { (result.numbers.now ≡ numbers_in (limits_in layout) cells.now)
        × (result.levels.now ≡ levels_in (limits_in layout) cells.now)
        × (result.kinds.now ≡ kinds_in (limits_in layout) cells.now) }
{
    let end = layout.clause_sizes_at();
    let prefix = &mut before[..end];
    prefix.copy_from_slice(&cells[..end]);
    layout.parts(prefix, &[]).variables
}

// The flags stand before the groups, though they are found after them. The number of the flags, where they are more than may be.
pub fn complete(layout: Layout, cells: &mut [u16], variables: usize) -> usize
    requires { (literals : List ℤ) × Grouped (limits_in layout) cells.old literals × (variables ≤ layout.numbers) }
    ensures { (literals : List ℤ) →
        Grouped (limits_in layout) cells.old literals →
        CompletedAt
        (limits_in layout)
        variables
        (formula_at cells.old literals)
        result
        cells.new
        literals }
{
    let mut before = [0u16; PREFIX_CELLS];
    let groups = set_aside(layout, cells, &mut before);
    let mut places = [0u16; tables::HIGHEST_BY_NUMBER];
    let shown = &mut places[..layout.numbers + 1];
    place_numbers(groups.numbers, layout.numbers, shown);
    regroup(layout, cells, groups, shown, variables)
}
