// The call for the closest reading.
ghost use Rattle.std.specs.Prelude.{◌≡◌, ◌<◌, length, take};
ghost use Rattle.qbf.specs.Truth.{free_variables};
ghost use Rattle.qbf.specs.Calls.{closest};
ghost use Rattle.state.specs.Reading.{prefix_in};
ghost use Rattle.state_parts.specs.Parts.{state_at};
ghost use Rattle.rule_calls.specs.ServesAt.{ServesAt};
ghost use Rattle.rule_calls.specs.StaysAt.{search_writes, StaysAt};
ghost use Rattle.closest_call.specs.Nearest.{nearest_said, returned, padded};
ghost use Rattle.asking.specs.Answered.{state_of};
ghost use Rattle.search_calls.specs.Full.{FullAs};

use crate::card::card_on;
use crate::checked::checked;
use crate::lent::Lent;
use asking::asked::Asked;
use asking::checked::Checked;
use closest_call::{Nearest, clear_reading, on_lines};
use reading::Flags;
use reading::placed::by_place;
use refusal::Refusal;
use search_entry::workspace::Workspace;

// A cell for each flag, behind one that is no place's.
const GIVEN: usize = tables::MOST_FREE + 1;

// How many flags there are, with the given values of all of them in place order behind the first cell; none where one is not given, or the arguments name no flag or
// one twice.
fn full_reading(
    checked: Checked<'_>,
    asked: Asked<'_>,
    values: &mut [u8],
    given: &mut [u8; GIVEN],
) -> Option<usize>
    requires { checked.numbers < length values.old }
    ensures { FullAs (prefix_in (state_of checked.entry)) asked.entry.on.now asked.entry.off.now result given.new }
{
    let numbers = checked.parts.variables.numbers;
    let free = checked.free();
    cover::clear(values);
    let flags = Flags {
        numbers,
        places: checked.places,
        free,
    };
    let Ok(full) = reading::read(flags, values, asked.on, asked.off) else {
        return None;
    };
    if !full {
        return None;
    }
    by_place(given, values, numbers, free);
    Some(free)
}

// "Given a full reading, return a reading on the swap card that differs from it in the fewest flags, and that number." "It works from a card made
// under a ceiling, whose count .. it also returns and whose lines the table then holds." The reading's bytes are the first of the lent ones, off 1 or
// on 2 for each free variable in place order, and all others are zero.
// stays (C): as `card_of`
pub fn closest(
    cells: &mut [u16],
    literals: &mut [i16],
    work: &mut Workspace,
    asked: Asked<'_>,
    table: &mut [u8],
    reading: &mut [u8; tables::MOST_FREE],
) -> Nearest
    ensures serves { ServesAt
        cells.old
        literals.old
        (closest asked.entry.ceiling (length table.old) asked.entry.on.now asked.entry.off.now)
        (nearest_said
        result.told
        result.lines
        result.visits
        table.new
        (take (free_variables (prefix_in (state_at cells.old literals.old))) reading.new))
        cells.new
        literals.new }
    ensures reading_after { reading.new
        ≡ padded
        (returned
        result.told
        (take (free_variables (prefix_in (state_at cells.old literals.old))) reading.new)) }
    ensures frame { StaysAt search_writes cells.old literals.old cells.new literals.new }
{
    clear_reading(reading);
    let Lent {
        places,
        kinds,
        values,
        scratch,
    } = Lent::of(work);
    let Ok(layout) = state_parts::check(cells, literals, places, kinds) else {
        cover::clear(table);
        return Nearest::refused(Refusal::Malformed, 0);
    };
    let mut given = [tables::OPEN; GIVEN];
    let state = checked(layout, cells, literals, places, kinds);
    let Some(free) = full_reading(state, asked, values, &mut given) else {
        cover::clear(table);
        return Nearest::refused(Refusal::NotFree, 0);
    };
    let listed = card_on(
        layout,
        cells,
        literals,
        places,
        kinds,
        values,
        scratch,
        table,
        true,
        asked.ceiling,
    );
    match listed.lines {
        Ok(lines) => on_lines(table, lines, listed.visits, &given[1..free + 1], reading),
        Err(refusal) => Nearest::refused(refusal, listed.visits),
    }
}
