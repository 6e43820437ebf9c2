// The accounts of a day: eight books share one total of visits. Nothing is asked of the accounts: where they exceed the total a call is refused.
#![tactic(auto)]

ghost use Rattle.std.specs.Prelude.{◌≡◌, true, ◌+◌, ◌<◌, min, length};
ghost use Rattle.days.specs.Accounts.{books, owed as owedOf, used as usedOf, owing, stop_number};
ghost use Rattle.days.specs.Day.{stop_as};
ghost use Rattle.refusal.specs.Refusal.{number_of};
ghost use Rattle.shares.specs.Shares.{share_of, allows_of, settled};

use refusal::Refusal;

// "Up to eight books, in places 1 to 8"
pub const BOOKS: usize = 8;

// What is still owed to the floor of a place.
fn owed(total: u32, used: u32) -> u32
    ensures { result ≡ owedOf total used }
{
    (total / BOOKS as u32).saturating_sub(used)
}

// The visits used and still owed, together: with used numbers of any size they take more than 32 bits.
// stays (no plainer): the total is the day's and never changes, and `charge` writes the eight numbers: a struct of both, lent to be written, would need a clause more, that
// the total is as it was
fn committed(used: [u32; BOOKS], total: u32) -> u64
    ensures { result ≡ usedOf used + owing total used }
{
    let mut sum: u64 = 0;
    for u in used.iter() {
        sum += u64::from(*u) + u64::from(owed(total, *u));
    }
    sum
}

// The visits that a call may use. "A call may use what remains of its own floor, plus what is neither used nor still owed to any floor." "a place
// without a book, or outside 1 to 8, is 38", before all else; then "a state whose visits used and still owed together exceed T is 22".
// stays (no plainer): whether a book stands at the place is a fact about it, judged first as the place's bounds are; no other step asks it. `used` and `total` are two, as
// for `committed`
pub fn allowance(used: [u32; BOOKS], total: u32, place: usize, book: bool) -> Result<u32, Refusal>
    ensures { result ≡ share_of total used place book }
{
    if !book {
        return Err(Refusal::NoBook);
    }
    if place == 0 {
        return Err(Refusal::NoBook);
    }
    if BOOKS < place {
        return Err(Refusal::NoBook);
    }
    let sum = committed(used, total);
    if u64::from(total) < sum {
        return Err(Refusal::Malformed);
    }
    let i = place - 1;
    let rest = (u64::from(total) - sum) as u32;
    Ok(owed(total, used[i]) + rest)
}

// The visits that a call may make: its own ceiling, or what its place may use.
// stays (no plainer): a struct of the two numbers would be taken apart in each of these three functions, which compare them or hand them on, and carries no fact
pub fn limit(own: u32, may: u32) -> u32
    ensures { result ≡ min own may }
{
    own.min(may)
}

// "A walk stopped by the shared total returns 37 where its own ceiling is higher, otherwise 34"
// stays (no plainer): the two numbers are those of `limit`, whose line says why they are no struct
fn stop(own: u32, may: u32) -> Refusal
    ensures { number_of result ≡ stop_number own may }
{
    if may < own {
        Refusal::StoppedByShare
    } else {
        Refusal::Stopped
    }
}

// The number of a call's refusal at its place, from that of the call under the limit; 0 where there is none.
// stays (no plainer): it takes and gives the number of any call's answer, 0 with them, as `stop_as` does; the ceiling and the share are two, as for `limit`
pub fn refusal(number: u16, own: u32, may: u32) -> u16
    ensures { result ≡ stop_as (stop_number own may) number }
{
    let stopped = number == Refusal::Stopped.number();
    if stopped {
        stop(own, may).number()
    } else {
        number
    }
}

// Whether a place may use so many visits.
// stays (no plainer): `used` and `total` are two, as for `committed`
fn may_use(used: [u32; BOOKS], total: u32, place: usize, visits: u64) -> bool
    ensures { (result ≡ allows_of (share_of total used place true) visits) × (length used ≡ books) }
{
    match allowance(used, total, place, true) {
        Ok(may) => visits <= u64::from(may),
        Err(_) => false,
    }
}

// "refused calls' visits count": the visits of a call are charged to its place, where it may use them; nothing else is charged.
// stays (no plainer): of `used` and `total` only the first is written, as the line of `committed` says
pub fn charge(used: &mut [u32; BOOKS], total: u32, place: usize, visits: u64)
    ensures { used.new ≡ settled total used.old place visits }
{
    let us = *used;
    if may_use(us, total, place, visits) {
        let i = place - 1;
        used[i] = us[i] + visits as u32;
    }
}
