// The calls that search, in one workspace that the caller lends for all places, with any content. A call's limit is its ceiling or what its place may use.
ghost use Rattle.std.specs.Prelude.{◌≡◌, [], length, take};
ghost use Rattle.qbf.specs.Calls.{query, card, keep_card, card_of, closest};
ghost use Rattle.serving.specs.Serves.{fault_of};
ghost use Rattle.closest_call.specs.Nearest.{padded};
ghost use Rattle.reply_numbers.specs.Answers.{reply_said, closest_said, unless_refused};
ghost use Rattle.places.specs.Day.{ServesAtPlace};
ghost use Rattle.day_calls.specs.Entered.{placed, free_at};

use crate::entered::{enter, refused, refused_closest};
use crate::settled::{Ceilings, settle};
use asking::asked::Asked;
use book_calls::searches::{bullacetop_book_closest, bullacetop_book_query, card_of};
use closest_call::clear_reading;
use places::{Accounts, Rooms};
use reply_numbers::{Closest, Reply};
use search_entry::workspace::Workspace;

// stays (C): the accounts, where the places lie, the two slices and the workspace are lent one by one, as the header declares them
pub fn bullacetop_day_query(
    accounts: &mut Accounts,
    rooms: &Rooms,
    cells: &mut [u16],
    literals: &mut [i16],
    work: &mut Workspace,
    place: usize,
    asked: Asked<'_>,
) -> Reply
    ensures { ServesAtPlace
        rooms.now
        accounts.old
        cells.old
        literals.old
        (placed place (query asked.entry.ceiling asked.entry.on.now asked.entry.off.now))
        (reply_said result [])
        accounts.new
        cells.new
        literals.new }
{
    let at = match enter(accounts, rooms, place, cells.len(), literals.len()) {
        Ok(at) => at,
        Err(refusal) => return refused(refusal),
    };
    let ceilings = Ceilings {
        own: asked.ceiling,
        may: at.may,
    };
    let under = Asked {
        on: asked.on,
        off: asked.off,
        ceiling: shares::limit(asked.ceiling, at.may),
    };
    let made = bullacetop_book_query(
        &mut cells[at.cells.from..at.cells.to],
        &mut literals[at.literals.from..at.literals.to],
        work,
        under,
    );
    let refusal = settle(accounts, place, ceilings, made.refusal, made.visits);
    Reply {
        refusal,
        verdict: made.verdict,
        lines: made.lines,
        visits: made.visits,
    }
}

// A card, or a keep card.
// stays (C): as the exports over it
fn card_at(
    accounts: &mut Accounts,
    rooms: &Rooms,
    cells: &mut [u16],
    literals: &mut [i16],
    work: &mut Workspace,
    place: usize,
    table: &mut [u8],
    yes: bool,
    ceiling: u32,
) -> Reply
    ensures { ServesAtPlace
        rooms.now
        accounts.old
        cells.old
        literals.old
        (placed place (card_of yes ceiling (length table.old)))
        (reply_said result table.new)
        accounts.new
        cells.new
        literals.new }
{
    let at = match enter(accounts, rooms, place, cells.len(), literals.len()) {
        Ok(at) => at,
        Err(refusal) => {
            cover::clear(table);
            return refused(refusal);
        }
    };
    let ceilings = Ceilings {
        own: ceiling,
        may: at.may,
    };
    let limit = shares::limit(ceiling, at.may);
    let made = card_of(
        &mut cells[at.cells.from..at.cells.to],
        &mut literals[at.literals.from..at.literals.to],
        work,
        table,
        yes,
        limit,
    );
    let refusal = settle(accounts, place, ceilings, made.refusal, made.visits);
    Reply {
        refusal,
        verdict: made.verdict,
        lines: made.lines,
        visits: made.visits,
    }
}

// stays (C): one function for each export; this and `bullacetop_day_keep_card` differ in a constant
pub fn bullacetop_day_card(
    accounts: &mut Accounts,
    rooms: &Rooms,
    cells: &mut [u16],
    literals: &mut [i16],
    work: &mut Workspace,
    place: usize,
    table: &mut [u8],
    ceiling: u32,
) -> Reply
    ensures { ServesAtPlace
        rooms.now
        accounts.old
        cells.old
        literals.old
        (placed place (card ceiling (length table.old)))
        (reply_said result table.new)
        accounts.new
        cells.new
        literals.new }
{
    card_at(
        accounts, rooms, cells, literals, work, place, table, true, ceiling,
    )
}

// stays (C): one function for each export, as `bullacetop_day_card`
pub fn bullacetop_day_keep_card(
    accounts: &mut Accounts,
    rooms: &Rooms,
    cells: &mut [u16],
    literals: &mut [i16],
    work: &mut Workspace,
    place: usize,
    table: &mut [u8],
    ceiling: u32,
) -> Reply
    ensures { ServesAtPlace
        rooms.now
        accounts.old
        cells.old
        literals.old
        (placed place (keep_card ceiling (length table.old)))
        (reply_said result table.new)
        accounts.new
        cells.new
        literals.new }
{
    card_at(
        accounts, rooms, cells, literals, work, place, table, false, ceiling,
    )
}

// The reading on the card that differs from a given one in the fewest flags. Its bytes stand first in the lent reading, and zeros behind them.
// stays (C): as `bullacetop_day_query`, with what a closest reading is lent
pub fn bullacetop_day_closest(
    accounts: &mut Accounts,
    rooms: &Rooms,
    cells: &mut [u16],
    literals: &mut [i16],
    work: &mut Workspace,
    place: usize,
    asked: Asked<'_>,
    table: &mut [u8],
    reading: &mut [u8; tables::MOST_FREE],
) -> Closest
    ensures serves { ServesAtPlace
        rooms.now
        accounts.old
        cells.old
        literals.old
        (placed place (closest asked.entry.ceiling (length table.old) asked.entry.on.now asked.entry.off.now))
        (closest_said
        result
        table.new
        (take (free_at rooms.now cells.old literals.old place) reading.new))
        accounts.new
        cells.new
        literals.new }
    ensures reading_after { reading.new
        ≡ padded
        (unless_refused
        (fault_of result.refusal)
        (take (free_at rooms.now cells.old literals.old place) reading.new)) }
{
    let at = match enter(accounts, rooms, place, cells.len(), literals.len()) {
        Ok(at) => at,
        Err(refusal) => {
            cover::clear(table);
            clear_reading(reading);
            return refused_closest(refusal);
        }
    };
    let ceilings = Ceilings {
        own: asked.ceiling,
        may: at.may,
    };
    let under = Asked {
        on: asked.on,
        off: asked.off,
        ceiling: shares::limit(asked.ceiling, at.may),
    };
    let made = bullacetop_book_closest(
        &mut cells[at.cells.from..at.cells.to],
        &mut literals[at.literals.from..at.literals.to],
        work,
        under,
        table,
        reading,
    );
    let refusal = settle(accounts, place, ceilings, made.refusal, made.visits);
    Closest {
        refusal,
        differs: made.differs,
        lines: made.lines,
        visits: made.visits,
    }
}
