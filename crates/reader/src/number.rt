// "Numbers have 1 to 5 digits and no leading zero (0 alone is allowed)." A ceiling has up to 10.
ghost use Rattle.std.specs.Prelude.{◌≡◌, ◌≤◌, length};
ghost use Rattle.qbf.specs.Ceiling.{highest_ceiling};
ghost use Rattle.layout.specs.Words.{digits, number, number_within, closed};
ghost use Rattle.layout.specs.Forms.{then};
ghost use Rattle.layout.specs.Endings.{within, number_up_to};
ghost use Rattle.reader.specs.Numbers.{num_of, UnclosedOf};

use crate::limit::{Limit, NUMBER};
use crate::word::CLOSING;

const ZERO: u8 = b'0';

// The value of digits that are not too many, where it is no higher than the highest ceiling.
fn value(w: &[u8]) -> Option<u32>
    requires { length w.now ≤ 10 }
    ensures { num_of result ≡ then (digits 0 w.now) (within highest_ceiling) }
{
    let mut v: u64 = 0;
    for b in w {
        if !b.is_ascii_digit() {
            return None;
        }
        v = v * 10 + (*b - ZERO) as u64;
    }
    u32::try_from(v).ok()
}

// A number of at most so many digits.
fn read_within(w: &[u8], limit: Limit) -> Option<u32>
    ensures { num_of result ≡ then (number_within limit.digits w.now) (within highest_ceiling) }
{
    let n = w.len();
    if n == 0 {
        return None;
    }
    let most = limit.digits;
    if most < n {
        return None;
    }
    if n == 1 {
        return value(w);
    }
    let leading = w[0] == ZERO;
    if leading {
        return None;
    }
    value(w)
}

pub fn read_number(w: &[u8]) -> Option<u32>
    ensures { num_of result ≡ number w.now }
{
    read_within(w, NUMBER)
}

// .. and no higher than the highest: "N from 0 to 4294967295, 1 to 10 digits, no leading zero"
pub fn read_up_to(w: &[u8], limit: Limit) -> Option<u32>
    ensures { num_of result ≡ number_up_to limit.digits limit.top w.now }
{
    let n = read_within(w, limit)?;
    (n <= limit.top).then_some(n)
}

// A word without the closing bracket that ends it.
fn unclosed(w: &[u8]) -> Option<&[u8]>
    ensures { UnclosedOf w.now result }
{
    match w {
        [word @ .., CLOSING] => Some(word),
        _ => None,
    }
}

// The number of a word that ends with a closing bracket.
pub fn closed_number(w: &[u8]) -> Option<u32>
    ensures { num_of result ≡ then (closed w.now) number }
{
    read_number(unclosed(w)?)
}

// .. of at most so many digits, and no higher than the highest
pub fn closed_within(w: &[u8], limit: Limit) -> Option<u32>
    ensures { num_of result ≡ then (closed w.now) (number_up_to limit.digits limit.top) }
{
    read_up_to(unclosed(w)?, limit)
}
