// A number in decimal, "with as many digits as they need".
ghost use Rattle.std.specs.Prelude.{◌+◌, ◌≤◌, length};
ghost use Rattle.layout.specs.Output.{decimal};
ghost use Rattle.writer.specs.Appended.{Appended, Room};
ghost use Rattle.writer.specs.Wrote.{Wrote};

use crate::Output;

const ZERO: u8 = b'0';

// The digits from a place on, and the place after them: the place is handed on by value, so that no digit waits for it to be stored.
#[tactic(auto, using(layout_laws::proofs::Decimal::length_one, layout_laws::proofs::Decimal::length_more))]
fn put_digits(bytes: &mut [u8], at: usize, n: u64) -> usize
    requires { at + length (decimal n) ≤ length bytes.old }
    ensures { Wrote bytes.old at (decimal n) bytes.new result }
{
    if n < 10 {
        bytes[at] = ZERO + n as u8;
        return at + 1;
    }
    let tenth = n / 10;
    if tenth < 10 {
        // two digits, as most numbers have, take no call
        bytes[at] = ZERO + tenth as u8;
        let last = at + 1;
        bytes[last] = ZERO + (n % 10) as u8;
        return last + 1;
    }
    let last = put_digits(bytes, at, tenth);
    bytes[last] = ZERO + (n % 10) as u8;
    last + 1
}

impl Output<'_> {
    pub fn put_number(&mut self, n: u64)
        requires { Room self.old (decimal n) }
        ensures { Appended self.old (decimal n) self.new }
    {
        self.at = put_digits(self.bytes, self.at, n);
    }
}
