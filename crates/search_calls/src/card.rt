// A card, or a keep card, of a state that was checked.
ghost use Rattle.std.specs.Prelude.{length};
ghost use Rattle.qbf.specs.Calls.{card_of};
ghost use Rattle.replies.specs.Replies.{card_said};
ghost use Rattle.rule_calls.specs.ServesAt.{ServesAt};
ghost use Rattle.rule_calls.specs.StaysAt.{search_writes, StaysAt};
ghost use Rattle.search_calls.specs.Checked.{ShownAt};

use crate::back::write_back;
use crate::checked::checked;
use asking::card::Made;
use replies::Listed;
use searching::run::Scratch;
use state_parts::limits::Layout;

// The tables by number are those that the check found.
// stays (proof): with the four tables of the workspace as one struct of loans that is handed on the borrow checker stops: "a parameter that holds a `&mut` is moved, whole or a field of it, and
// what it is moved to is changed, moved on or lent"
pub fn card_on(
    layout: Layout,
    cells: &mut [u16],
    literals: &mut [i16],
    places: &mut [u16; tables::HIGHEST_BY_NUMBER],
    kinds: &[u16; tables::HIGHEST_BY_NUMBER],
    values: &mut [u8],
    scratch: Scratch<'_>,
    table: &mut [u8],
    yes: bool,
    ceiling: u32,
) -> Listed
    requires { ShownAt layout cells.old literals.old places.old kinds.now }
    ensures serves { ServesAt
        cells.old
        literals.old
        (card_of yes ceiling (length table.old))
        (card_said result.lines result.visits table.new)
        cells.new
        literals.new }
    ensures frame { StaysAt search_writes cells.old literals.old cells.new literals.new }
{
    let checked = checked(layout, cells, literals, places, kinds);
    let Made { listed, learned } = asking::card::card_of(
        checked, table, yes, ceiling, values, scratch,
    );
    match learned {
        Some(learned) => {
            write_back(layout, cells, literals, &learned, places);
            listed
        }
        None => listed,
    }
}
