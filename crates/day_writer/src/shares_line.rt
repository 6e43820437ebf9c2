// The line of a day's shares: the total, and for each place what was used there and what a call there may still use.
ghost use Rattle.std.specs.Prelude.{◌≡◌, ◌<◌, ◌≤◌, ◌+◌, ◌*◌};
ghost use Rattle.days.specs.Accounts.{books};
ghost use Rattle.day_text.specs.Output.{left_at, share_text, shares_from, shares_text};
ghost use Rattle.writer.specs.Appended.{Appended, Room};
ghost use Rattle.day_writer.specs.Room.{HasRoom, share_bytes, line_bytes};

use shares::{BOOKS, allowance};
use writer::Output;

// What a call at a place may still use, counted from 0: nothing where it would be refused.
fn left(used: [u32; BOOKS], total: u32, i: usize) -> u32
    requires { i < books }
    ensures { result ≡ left_at total used i }
{
    allowance(used, total, i + 1, true).unwrap_or(0)
}

// A place with what was used there, and what is left.
#[derive(Clone, Copy)]
struct Share {
    place: u64,
    used: u64,
    left: u64,
}

#[tactic(auto, using(crate::proofs::Lengths::share_length))]
fn put_share(out: &mut Output<'_>, share: Share)
    requires { Room out.old (share_text share.place share.used share.left) }
    ensures { Appended out.old (share_text share.place share.used share.left) out.new }
{
    out.put_word(b" (place ");
    out.put_number(share.place);
    out.put_word(b" (used ");
    out.put_number(share.used);
    out.put_word(b") (left ");
    out.put_number(share.left);
    out.put_word(b"))");
}

fn put_places(out: &mut Output<'_>, used: [u32; BOOKS], total: u32)
    requires { HasRoom out.old (share_bytes * books) }
    ensures { Appended out.old (shares_from total used 0 used) out.new × (out.new.at ≤ out.old.at + share_bytes * books) }
{
    for (i, u) in used.iter().enumerate() {
        let share = Share {
            place: (i + 1) as u64,
            used: *u as u64,
            left: left(used, total, i) as u64,
        };
        put_share(out, share);
    }
}

// No line of shares is longer than it has room for.
pub fn put_shares(out: &mut Output<'_>, used: [u32; BOOKS], total: u32)
    requires { HasRoom out.old line_bytes }
    ensures { Appended out.old (shares_text total used) out.new }
{
    out.put_word(b"(shares (total ");
    out.put_number(total as u64);
    out.put_word(b")");
    put_places(out, used, total);
    out.put_word(b")\n");
}
