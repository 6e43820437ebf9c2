// The calls that change the rules or the store: they make no visits, and the accounts stay.
ghost use Rattle.std.specs.Prelude.{[]};
ghost use Rattle.qbf.specs.Calls.{rule, one, withdraw, forget};
ghost use Rattle.reply_numbers.specs.Answers.{reply_said};
ghost use Rattle.places.specs.Day.{ServesAtPlace};
ghost use Rattle.day_calls.specs.Entered.{placed};

use crate::entered::{enter, refused};
use book_calls::changes::{
    bullacetop_book_forget, bullacetop_book_one, bullacetop_book_rule, bullacetop_book_withdraw,
};
use places::{Accounts, Rooms};
use reply_numbers::Reply;

// stays (C): one function for each export, with the accounts, the places, the two slices and the place as the header declares them; the four differ in the call of a book
pub fn bullacetop_day_rule(
    accounts: &Accounts,
    rooms: &Rooms,
    cells: &mut [u16],
    literals: &mut [i16],
    place: usize,
    lits: &[i16],
) -> Reply
    ensures { ServesAtPlace
        rooms.now
        accounts.now
        cells.old
        literals.old
        (placed place (rule lits.now))
        (reply_said result [])
        accounts.now
        cells.new
        literals.new }
{
    let at = match enter(accounts, rooms, place, cells.len(), literals.len()) {
        Ok(at) => at,
        Err(refusal) => return refused(refusal),
    };
    bullacetop_book_rule(
        &mut cells[at.cells.from..at.cells.to],
        &mut literals[at.literals.from..at.literals.to],
        lits,
    )
}

// stays (C): one function for each export, as `bullacetop_day_rule`
pub fn bullacetop_day_one(
    accounts: &Accounts,
    rooms: &Rooms,
    cells: &mut [u16],
    literals: &mut [i16],
    place: usize,
    lits: &[i16],
) -> Reply
    ensures { ServesAtPlace
        rooms.now
        accounts.now
        cells.old
        literals.old
        (placed place (one lits.now))
        (reply_said result [])
        accounts.now
        cells.new
        literals.new }
{
    let at = match enter(accounts, rooms, place, cells.len(), literals.len()) {
        Ok(at) => at,
        Err(refusal) => return refused(refusal),
    };
    bullacetop_book_one(
        &mut cells[at.cells.from..at.cells.to],
        &mut literals[at.literals.from..at.literals.to],
        lits,
    )
}

// stays (C): one function for each export, as `bullacetop_day_rule`
pub fn bullacetop_day_withdraw(
    accounts: &Accounts,
    rooms: &Rooms,
    cells: &mut [u16],
    literals: &mut [i16],
    place: usize,
) -> Reply
    ensures { ServesAtPlace
        rooms.now
        accounts.now
        cells.old
        literals.old
        (placed place withdraw)
        (reply_said result [])
        accounts.now
        cells.new
        literals.new }
{
    let at = match enter(accounts, rooms, place, cells.len(), literals.len()) {
        Ok(at) => at,
        Err(refusal) => return refused(refusal),
    };
    bullacetop_book_withdraw(
        &mut cells[at.cells.from..at.cells.to],
        &mut literals[at.literals.from..at.literals.to],
    )
}

// Nothing of the literals is written.
// stays (C): one function for each export, as `bullacetop_day_rule`
pub fn bullacetop_day_forget(
    accounts: &Accounts,
    rooms: &Rooms,
    cells: &mut [u16],
    literals: &[i16],
    place: usize,
) -> Reply
    ensures { ServesAtPlace
        rooms.now
        accounts.now
        cells.old
        literals.now
        (placed place forget)
        (reply_said result [])
        accounts.now
        cells.new
        literals.now }
{
    let at = match enter(accounts, rooms, place, cells.len(), literals.len()) {
        Ok(at) => at,
        Err(refusal) => return refused(refusal),
    };
    bullacetop_book_forget(
        &mut cells[at.cells.from..at.cells.to],
        &literals[at.literals.from..at.literals.to],
    )
}
