// The calls that search, each in a workspace that the caller lends with any content.
ghost use Rattle.std.specs.Prelude.{◌≡◌, [], length, take};
ghost use Rattle.qbf.specs.Truth.{free_variables};
ghost use Rattle.qbf.specs.Calls.{query, card, keep_card, card_of, closest};
ghost use Rattle.state.specs.Reading.{prefix_in};
ghost use Rattle.state_parts.specs.Parts.{state_at};
ghost use Rattle.serving.specs.Serves.{fault_of};
ghost use Rattle.rule_calls.specs.ServesAt.{ServesAt};
ghost use Rattle.rule_calls.specs.StaysAt.{search_writes, StaysAt};
ghost use Rattle.closest_call.specs.Nearest.{padded};
ghost use Rattle.reply_numbers.specs.Answers.{reply_said, closest_said, unless_refused};

use asking::asked::Asked;
use reply_numbers::{Closest, Reply};
use search_entry::workspace::Workspace;

pub fn bullacetop_book_query(
    cells: &mut [u16],
    literals: &mut [i16],
    work: &mut Workspace,
    asked: Asked<'_>,
) -> Reply
    ensures serves { ServesAt
        cells.old
        literals.old
        (query asked.entry.ceiling asked.entry.on.now asked.entry.off.now)
        (reply_said result [])
        cells.new
        literals.new }
    ensures frame { StaysAt search_writes cells.old literals.old cells.new literals.new }
{
    let ruled = search_calls::query(cells, literals, work, asked);
    Reply::from(ruled)
}

// A card, or a keep card.
// stays (C): as the exports over it
pub fn card_of(
    cells: &mut [u16],
    literals: &mut [i16],
    work: &mut Workspace,
    table: &mut [u8],
    yes: bool,
    ceiling: u32,
) -> Reply
    ensures serves { ServesAt
        cells.old
        literals.old
        (card_of yes ceiling (length table.old))
        (reply_said result table.new)
        cells.new
        literals.new }
    ensures frame { StaysAt search_writes cells.old literals.old cells.new literals.new }
{
    let shown = search_calls::card_of(cells, literals, work, table, yes, ceiling);
    Reply::from(shown)
}

// stays (C): one function for each export; this and `bullacetop_book_keep_card` differ in a constant
pub fn bullacetop_book_card(
    cells: &mut [u16],
    literals: &mut [i16],
    work: &mut Workspace,
    table: &mut [u8],
    ceiling: u32,
) -> Reply
    ensures serves { ServesAt
        cells.old
        literals.old
        (card ceiling (length table.old))
        (reply_said result table.new)
        cells.new
        literals.new }
    ensures frame { StaysAt search_writes cells.old literals.old cells.new literals.new }
{
    card_of(cells, literals, work, table, true, ceiling)
}

// stays (C): one function for each export, as `bullacetop_book_card`
pub fn bullacetop_book_keep_card(
    cells: &mut [u16],
    literals: &mut [i16],
    work: &mut Workspace,
    table: &mut [u8],
    ceiling: u32,
) -> Reply
    ensures serves { ServesAt
        cells.old
        literals.old
        (keep_card ceiling (length table.old))
        (reply_said result table.new)
        cells.new
        literals.new }
    ensures frame { StaysAt search_writes cells.old literals.old cells.new literals.new }
{
    card_of(cells, literals, work, table, false, ceiling)
}

// The reading on the card that differs from a given one in the fewest flags. Its bytes stand first in the lent reading, and zeros behind them.
// stays (C): the two tables of a state, the workspace and what a closest reading is lent, one after another, as the header declares them
pub fn bullacetop_book_closest(
    cells: &mut [u16],
    literals: &mut [i16],
    work: &mut Workspace,
    asked: Asked<'_>,
    table: &mut [u8],
    reading: &mut [u8; tables::MOST_FREE],
) -> Closest
    ensures serves { ServesAt
        cells.old
        literals.old
        (closest asked.entry.ceiling (length table.old) asked.entry.on.now asked.entry.off.now)
        (closest_said
        result
        table.new
        (take (free_variables (prefix_in (state_at cells.old literals.old))) reading.new))
        cells.new
        literals.new }
    ensures reading_after { reading.new
        ≡ padded
        (unless_refused
        (fault_of result.refusal)
        (take (free_variables (prefix_in (state_at cells.old literals.old))) reading.new)) }
    ensures frame { StaysAt search_writes cells.old literals.old cells.new literals.new }
{
    let found = search_calls::closest(cells, literals, work, asked, table, reading);
    let reply = Closest::from(found);
    reply
}
