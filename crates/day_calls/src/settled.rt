// What a call that searched under its limit is told as, and what it is charged.
ghost use Rattle.std.specs.Prelude.{◌≡◌};
ghost use Rattle.days.specs.Accounts.{stop_number};
ghost use Rattle.days.specs.Day.{stop_as};
ghost use Rattle.shares.specs.Shares.{settled};
ghost use Rattle.places.specs.Day.{with_used};

use places::Accounts;

// A call's own ceiling, and what its place may use.
#[derive(Clone, Copy)]
pub struct Ceilings {
    pub own: u32,
    pub may: u32,
}

// The number of its refusal, 0 for none; "refused calls' visits count".
// stays (C): the number of any call's answer and its visits, of the two structs that other languages read
pub fn settle(
    accounts: &mut Accounts,
    place: usize,
    ceilings: Ceilings,
    refusal: u16,
    visits: u64,
) -> u16
    ensures { (result ≡ stop_as (stop_number ceilings.own ceilings.may) refusal)
        × (accounts.new
        ≡ with_used
        accounts.old
        (settled accounts.old.total accounts.old.used place visits)) }
{
    accounts.charge(place, visits);
    shares::refusal(refusal, ceilings.own, ceilings.may)
}
