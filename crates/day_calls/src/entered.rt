// What a call at a place may use, and where its tables lie; or the day's refusal.
ghost use Rattle.std.specs.Prelude.{◌≡◌, List, [], ℕ};
ghost use Rattle.refusal.specs.Refusal.{number_of};
ghost use Rattle.serving.specs.Serves.{said};
ghost use Rattle.std.proofs.Math.Option.{some};
ghost use Rattle.reply_numbers.specs.Answers.{reply_said, closest_said, unless_refused};
ghost use Rattle.serving.specs.Serves.{fault_of};
ghost use Rattle.day_calls.specs.Entered.{EnteredAs};

use places::{Accounts, Bounds, Rooms};
use refusal::Refusal;
use reply_numbers::{Closest, Reply};

#[derive(Clone, Copy)]
pub struct Entered {
    pub may: u32,
    pub cells: Bounds,
    pub literals: Bounds,
}

// "a place without a book, or outside 1 to 8, is 38, before all else. Next, a state whose visits used and still owed together exceed T is 22."
// stays (no plainer): the accounts, where the places lie, and how long the two slices are, which are lent to the call itself
pub fn enter(
    accounts: &Accounts,
    rooms: &Rooms,
    place: usize,
    cells: usize,
    literals: usize,
) -> Result<Entered, Refusal>
    ensures { EnteredAs accounts.now rooms.now place cells literals result }
{
    let may = accounts.allowance(place)?;
    Ok(Entered {
        may,
        cells: rooms.cells_at(place, cells),
        literals: rooms.literals_at(place, literals),
    })
}

// The answer of a call that the day refuses.
pub fn refused(refusal: Refusal) -> Reply
    ensures { (table : List ℕ) → reply_said result table ≡ said (some (number_of refusal)) 0 0 0 table }
{
    Reply {
        refusal: refusal.number(),
        verdict: 0,
        lines: 0,
        visits: 0,
    }
}

// .. and that of a closest reading, which returns none.
pub fn refused_closest(refusal: Refusal) -> Closest
    ensures told { (table bytes : List ℕ) → closest_said result table bytes ≡ said (some (number_of refusal)) 0 0 0 table }
    ensures none { (bytes : List ℕ) → unless_refused (fault_of result.refusal) bytes ≡ [] }
{
    Closest {
        refusal: refusal.number(),
        differs: 0,
        lines: 0,
        visits: 0,
    }
}
