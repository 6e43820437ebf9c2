// The calls on a book at a place of a day: eight books in two long slices. Each calls the function of its name in `day_calls`.
ghost use Rattle.std.specs.Prelude.{◌≡◌, true, List, [], ℕ, ℤ, length, take};
ghost use Rattle.qbf.specs.Formula.{capped};
ghost use Rattle.qbf.specs.Calls.{rule, one, withdraw, forget, query, card, keep_card, closest};
ghost use Rattle.editions.specs.Opening.{both, open_editions};
ghost use Rattle.serving.specs.Serves.{fault_of};
ghost use Rattle.days.specs.Day.{loaded};
ghost use Rattle.shares.specs.Shares.{share_of};
ghost use Rattle.closest_call.specs.Nearest.{padded};
ghost use Rattle.reply_numbers.specs.Answers.{reply_said, closest_said, unless_refused};
ghost use Rattle.places.specs.declared.rooms.Rooms.{Rooms as Lying};
ghost use Rattle.places.specs.Day.{booked, day_in, ServesAtPlace};
ghost use Rattle.day_calls.specs.Entered.{placed, free_at};
ghost use Rattle.day_calls.specs.Opens.{begun, OpensAtPlace, WritesAtPlace};
ghost use Rattle.day_calls.specs.Shared.{ShareTold};

use asking::asked::Asked;
use book_calls::text::Opened;
use book_writer::Written;
use day_calls::share::Share;
use places::{Accounts, Rooms};
use reply_numbers::{Closest, Reply};
use search_entry::workspace::Workspace;
use state::parts::Limits;

#[unsafe(no_mangle)]
pub extern "C" fn bullacetop_day_begin(accounts: &mut Accounts, total: u32)
    ensures begins { accounts.new ≡ begun total }
    ensures day { (R : Lying) (cells : List ℕ) (literals : List ℤ) → day_in R accounts.new cells literals ≡ loaded total [] }
{
    day_calls::loading::bullacetop_day_begin(accounts, total)
}

// stays (C): the header declares these parameters
#[unsafe(no_mangle)]
pub extern "C" fn bullacetop_day_open(
    accounts: &mut Accounts,
    rooms: &Rooms,
    cells: &mut [u16],
    literals: &mut [i16],
    place: usize,
    text: &[u8],
    numbers: usize,
    rules: usize,
) -> Opened
    ensures { OpensAtPlace
        rooms.now
        (capped numbers rules)
        (open_editions both (capped numbers rules) text.now)
        accounts.old
        cells.old
        literals.old
        place
        result
        accounts.new
        cells.new
        literals.new }
{
    let limits = Limits {
        numbers,
        clauses: rules,
    };
    day_calls::loading::bullacetop_day_open(accounts, rooms, cells, literals, place, text, limits)
}

// stays (C): the header declares these parameters
#[unsafe(no_mangle)]
pub extern "C" fn bullacetop_day_write(
    accounts: &Accounts,
    rooms: &Rooms,
    cells: &[u16],
    literals: &[i16],
    place: usize,
    table: &mut [u8],
) -> Written
    ensures { WritesAtPlace
        rooms.now
        (share_of
        accounts.now.total
        accounts.now.used
        place
        (booked accounts.now.books place))
        cells.now
        literals.now
        place
        (length table.old)
        result
        table.new }
{
    day_calls::loading::bullacetop_day_write(accounts, rooms, cells, literals, place, table)
}

#[unsafe(no_mangle)]
pub extern "C" fn bullacetop_day_share(accounts: &Accounts, place: usize) -> Share
    ensures { ShareTold (share_of accounts.now.total accounts.now.used place true) result }
{
    day_calls::share::bullacetop_day_share(accounts, place)
}

// stays (C): the header declares these parameters
#[unsafe(no_mangle)]
pub extern "C" fn bullacetop_day_rule(
    accounts: &Accounts,
    rooms: &Rooms,
    cells: &mut [u16],
    literals: &mut [i16],
    place: usize,
    lits: &[i16],
) -> Reply
    ensures { ServesAtPlace
        rooms.now
        accounts.now
        cells.old
        literals.old
        (placed place (rule lits.now))
        (reply_said result [])
        accounts.now
        cells.new
        literals.new }
{
    day_calls::changes::bullacetop_day_rule(accounts, rooms, cells, literals, place, lits)
}

// stays (C): the header declares these parameters
#[unsafe(no_mangle)]
pub extern "C" fn bullacetop_day_one(
    accounts: &Accounts,
    rooms: &Rooms,
    cells: &mut [u16],
    literals: &mut [i16],
    place: usize,
    lits: &[i16],
) -> Reply
    ensures { ServesAtPlace
        rooms.now
        accounts.now
        cells.old
        literals.old
        (placed place (one lits.now))
        (reply_said result [])
        accounts.now
        cells.new
        literals.new }
{
    day_calls::changes::bullacetop_day_one(accounts, rooms, cells, literals, place, lits)
}

// stays (C): the header declares these parameters
#[unsafe(no_mangle)]
pub extern "C" fn bullacetop_day_withdraw(
    accounts: &Accounts,
    rooms: &Rooms,
    cells: &mut [u16],
    literals: &mut [i16],
    place: usize,
) -> Reply
    ensures { ServesAtPlace
        rooms.now
        accounts.now
        cells.old
        literals.old
        (placed place withdraw)
        (reply_said result [])
        accounts.now
        cells.new
        literals.new }
{
    day_calls::changes::bullacetop_day_withdraw(accounts, rooms, cells, literals, place)
}

// stays (C): the header declares these parameters
#[unsafe(no_mangle)]
pub extern "C" fn bullacetop_day_forget(
    accounts: &Accounts,
    rooms: &Rooms,
    cells: &mut [u16],
    literals: &[i16],
    place: usize,
) -> Reply
    ensures { ServesAtPlace
        rooms.now
        accounts.now
        cells.old
        literals.now
        (placed place forget)
        (reply_said result [])
        accounts.now
        cells.new
        literals.now }
{
    day_calls::changes::bullacetop_day_forget(accounts, rooms, cells, literals, place)
}

// stays (C): the header declares these parameters
#[unsafe(no_mangle)]
pub extern "C" fn bullacetop_day_query<'a>(
    accounts: &mut Accounts,
    rooms: &Rooms,
    cells: &mut [u16],
    literals: &mut [i16],
    work: &mut Workspace,
    place: usize,
    on: &'a [i16],
    off: &'a [i16],
    ceiling: u32,
) -> Reply
    ensures { ServesAtPlace
        rooms.now
        accounts.old
        cells.old
        literals.old
        (placed place (query ceiling on.now off.now))
        (reply_said result [])
        accounts.new
        cells.new
        literals.new }
{
    let asked = Asked { on, off, ceiling };
    day_calls::searches::bullacetop_day_query(accounts, rooms, cells, literals, work, place, asked)
}

// stays (C): the header declares these parameters
#[unsafe(no_mangle)]
pub extern "C" fn bullacetop_day_card(
    accounts: &mut Accounts,
    rooms: &Rooms,
    cells: &mut [u16],
    literals: &mut [i16],
    work: &mut Workspace,
    place: usize,
    table: &mut [u8],
    ceiling: u32,
) -> Reply
    ensures { ServesAtPlace
        rooms.now
        accounts.old
        cells.old
        literals.old
        (placed place (card ceiling (length table.old)))
        (reply_said result table.new)
        accounts.new
        cells.new
        literals.new }
{
    day_calls::searches::bullacetop_day_card(
        accounts, rooms, cells, literals, work, place, table, ceiling,
    )
}

// stays (C): the header declares these parameters
#[unsafe(no_mangle)]
pub extern "C" fn bullacetop_day_keep_card(
    accounts: &mut Accounts,
    rooms: &Rooms,
    cells: &mut [u16],
    literals: &mut [i16],
    work: &mut Workspace,
    place: usize,
    table: &mut [u8],
    ceiling: u32,
) -> Reply
    ensures { ServesAtPlace
        rooms.now
        accounts.old
        cells.old
        literals.old
        (placed place (keep_card ceiling (length table.old)))
        (reply_said result table.new)
        accounts.new
        cells.new
        literals.new }
{
    day_calls::searches::bullacetop_day_keep_card(
        accounts, rooms, cells, literals, work, place, table, ceiling,
    )
}

// stays (C): the header declares these parameters
#[unsafe(no_mangle)]
pub extern "C" fn bullacetop_day_closest<'a>(
    accounts: &mut Accounts,
    rooms: &Rooms,
    cells: &mut [u16],
    literals: &mut [i16],
    work: &mut Workspace,
    place: usize,
    on: &'a [i16],
    off: &'a [i16],
    table: &mut [u8],
    reading: &mut [u8; tables::MOST_FREE],
    ceiling: u32,
) -> Closest
    ensures serves { ServesAtPlace
        rooms.now
        accounts.old
        cells.old
        literals.old
        (placed place (closest ceiling (length table.old) on.now off.now))
        (closest_said
        result
        table.new
        (take (free_at rooms.now cells.old literals.old place) reading.new))
        accounts.new
        cells.new
        literals.new }
    ensures reading_after { reading.new
        ≡ padded
        (unless_refused
        (fault_of result.refusal)
        (take (free_at rooms.now cells.old literals.old place) reading.new)) }
{
    let asked = Asked { on, off, ceiling };
    day_calls::searches::bullacetop_day_closest(
        accounts, rooms, cells, literals, work, place, asked, table, reading,
    )
}
