// What a call at a place may still use.
ghost use Rattle.std.specs.Prelude.{true};
ghost use Rattle.shares.specs.Shares.{share_of};
ghost use Rattle.day_calls.specs.Shared.{ShareTold};

use places::Accounts;

// A refusal of 0 is none; 38 outside 1 to 8, and 22 where the accounts exceed the total.
// stays (C): other languages read the number of the refusal, 0 for none, and the visits beside it
#[repr(C)]
#[derive(Clone, Copy)]
pub struct Share {
    pub refusal: u16,
    pub visits: u32,
}

// Of any of the eight places, with a book or not: "Each place, with a book or not, has a floor".
pub fn bullacetop_day_share(accounts: &Accounts, place: usize) -> Share
    ensures { ShareTold (share_of accounts.now.total accounts.now.used place true) result }
{
    match shares::allowance(accounts.used, accounts.total, place, true) {
        Ok(visits) => Share { refusal: 0, visits },
        Err(refusal) => Share {
            refusal: refusal.number(),
            visits: 0,
        },
    }
}
