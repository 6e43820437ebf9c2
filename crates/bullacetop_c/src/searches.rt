// The calls that search, each in a workspace that the caller lends with any content.
ghost use Rattle.std.specs.Prelude.{◌≡◌, [], length, take};
ghost use Rattle.qbf.specs.Truth.{free_variables};
ghost use Rattle.qbf.specs.Calls.{query, card, keep_card, closest};
ghost use Rattle.state.specs.Reading.{prefix_in};
ghost use Rattle.state_parts.specs.Parts.{state_at};
ghost use Rattle.serving.specs.Serves.{fault_of};
ghost use Rattle.rule_calls.specs.ServesAt.{ServesAt};
ghost use Rattle.rule_calls.specs.StaysAt.{search_writes, StaysAt};
ghost use Rattle.closest_call.specs.Nearest.{padded};
ghost use Rattle.reply_numbers.specs.Answers.{reply_said, closest_said, unless_refused};

use asking::asked::Asked;
use reply_numbers::{Closest, Reply};
use search_entry::workspace::Workspace;

// stays (C): the header declares these parameters
#[unsafe(no_mangle)]
pub extern "C" fn bullacetop_book_query<'a>(
    cells: &mut [u16],
    literals: &mut [i16],
    work: &mut Workspace,
    on: &'a [i16],
    off: &'a [i16],
    ceiling: u32,
) -> Reply
    ensures serves { ServesAt
        cells.old
        literals.old
        (query ceiling on.now off.now)
        (reply_said result [])
        cells.new
        literals.new }
    ensures frame { StaysAt search_writes cells.old literals.old cells.new literals.new }
{
    let asked = Asked { on, off, ceiling };
    book_calls::searches::bullacetop_book_query(cells, literals, work, asked)
}

#[unsafe(no_mangle)]
pub extern "C" fn bullacetop_book_card(
    cells: &mut [u16],
    literals: &mut [i16],
    work: &mut Workspace,
    table: &mut [u8],
    ceiling: u32,
) -> Reply
    ensures serves { ServesAt
        cells.old
        literals.old
        (card ceiling (length table.old))
        (reply_said result table.new)
        cells.new
        literals.new }
    ensures frame { StaysAt search_writes cells.old literals.old cells.new literals.new }
{
    book_calls::searches::bullacetop_book_card(cells, literals, work, table, ceiling)
}

#[unsafe(no_mangle)]
pub extern "C" fn bullacetop_book_keep_card(
    cells: &mut [u16],
    literals: &mut [i16],
    work: &mut Workspace,
    table: &mut [u8],
    ceiling: u32,
) -> Reply
    ensures serves { ServesAt
        cells.old
        literals.old
        (keep_card ceiling (length table.old))
        (reply_said result table.new)
        cells.new
        literals.new }
    ensures frame { StaysAt search_writes cells.old literals.old cells.new literals.new }
{
    book_calls::searches::bullacetop_book_keep_card(cells, literals, work, table, ceiling)
}

// The reading on the card that differs from a given one in the fewest flags. Its bytes stand first in the lent reading, and zeros behind them.
// stays (C): the header declares these parameters
#[unsafe(no_mangle)]
pub extern "C" fn bullacetop_book_closest<'a>(
    cells: &mut [u16],
    literals: &mut [i16],
    work: &mut Workspace,
    on: &'a [i16],
    off: &'a [i16],
    table: &mut [u8],
    reading: &mut [u8; tables::MOST_FREE],
    ceiling: u32,
) -> Closest
    ensures serves { ServesAt
        cells.old
        literals.old
        (closest ceiling (length table.old) on.now off.now)
        (closest_said
        result
        table.new
        (take (free_variables (prefix_in (state_at cells.old literals.old))) reading.new))
        cells.new
        literals.new }
    ensures reading_after { reading.new
        ≡ padded
        (unless_refused
        (fault_of result.refusal)
        (take (free_variables (prefix_in (state_at cells.old literals.old))) reading.new)) }
    ensures frame { StaysAt search_writes cells.old literals.old cells.new literals.new }
{
    let asked = Asked { on, off, ceiling };
    book_calls::searches::bullacetop_book_closest(cells, literals, work, asked, table, reading)
}
