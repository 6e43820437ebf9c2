// The calls that search, open to outsiders, on a state in two lent tables under its own limits.
#![tactic(auto)]

ghost use Rattle.std.specs.Prelude.{length};
ghost use Rattle.qbf.specs.Calls.{query, card_of};
ghost use Rattle.replies.specs.Replies.{ruling_said, card_said};
ghost use Rattle.rule_calls.specs.ServesAt.{ServesAt};
ghost use Rattle.rule_calls.specs.StaysAt.{search_writes, StaysAt};

use asking::asked::Asked;
use asking::query::Told;
use back::write_back;
use card::card_on;
use checked::checked;
use lent::Lent;
pub use nearest::closest;
use refusal::Refusal;
use replies::{Listed, Ruled};
use search_entry::workspace::Workspace;

mod back; // what is learned, written back
mod card; // a card of a checked state
mod checked; // the state as it was checked
mod lent; // the tables of a workspace
mod nearest; // the closest reading

// "From now on a query gives the flags that are on and those that are off, and the rest are open."
pub fn query(
    cells: &mut [u16],
    literals: &mut [i16],
    work: &mut Workspace,
    asked: Asked<'_>,
) -> Ruled
    ensures serves { ServesAt
        cells.old
        literals.old
        (query asked.entry.ceiling asked.entry.on.now asked.entry.off.now)
        (ruling_said result.ruling result.visits)
        cells.new
        literals.new }
    ensures frame { StaysAt search_writes cells.old literals.old cells.new literals.new }
{
    let Lent {
        places,
        kinds,
        values,
        scratch,
    } = Lent::of(work);
    let Ok(layout) = state_parts::check(cells, literals, places, kinds) else {
        return Ruled::refused(Refusal::Malformed);
    };
    let checked = checked(layout, cells, literals, places, kinds);
    let Told { ruled, learned } = asking::query::query(checked, asked, values, scratch);
    match learned {
        Some(learned) => {
            write_back(layout, cells, literals, &learned, places);
            ruled
        }
        None => ruled,
    }
}

// "Card writes to a lent byte table and returns lines and visits." "Make the keep card in the same way, with topmost No nodes": the lines are Yes
// nodes, or No nodes.
// stays (C): the two tables, the workspace and the card's table are lent one by one, as the header declares them
pub fn card_of(
    cells: &mut [u16],
    literals: &mut [i16],
    work: &mut Workspace,
    table: &mut [u8],
    yes: bool,
    ceiling: u32,
) -> Listed
    ensures serves { ServesAt
        cells.old
        literals.old
        (card_of yes ceiling (length table.old))
        (card_said result.lines result.visits table.new)
        cells.new
        literals.new }
    ensures frame { StaysAt search_writes cells.old literals.old cells.new literals.new }
{
    let Lent {
        places,
        kinds,
        values,
        scratch,
    } = Lent::of(work);
    let Ok(layout) = state_parts::check(cells, literals, places, kinds) else {
        cover::clear(table);
        return Listed::refused(Refusal::Malformed, 0);
    };
    card_on(
        layout, cells, literals, places, kinds, values, scratch, table, yes, ceiling,
    )
}
