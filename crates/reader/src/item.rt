// An item of a line, `3` or `(no 3)`, as a literal of 16 bits.
ghost use Rattle.std.specs.Prelude.{◌≡◌, suc, ◌≤◌, ◌&&◌, pos};
ghost use Rattle.qbf.specs.Formula.{highest};
ghost use Rattle.layout.specs.Words.{same};
ghost use Rattle.layout.specs.Forms.{no_word, off};
ghost use Rattle.reader.specs.Items.{ItemRead, narrow};

use crate::number::{closed_number, read_number};
use crate::word::{SPACE, cut, same_word};

// A literal, and the words that are left behind it.
#[derive(Clone, Copy)]
pub struct Item<'a> {
    pub literal: i16,
    pub left: Option<&'a [u8]>,
}

// A number in 16 bits. It is judged before it is narrowed: one that is no variable's under any limits becomes the first that is none.
pub fn narrow(v: u32) -> u16
    ensures { result ≡ narrow v }
{
    v.min(tables::HIGHEST_BY_NUMBER as u32) as u16
}

// "positive means on, its negation off"
// stays (no plainer): it is the cast of a small number, and its contract says so once for its three callers.
pub fn on(n: u16) -> i16
    requires { n ≤ suc highest.numbers }
    ensures { result ≡ pos n }
{
    n as i16
}

pub fn off(n: u16) -> i16
    requires { n ≤ suc highest.numbers }
    ensures { result ≡ off n }
{
    -(n as i16)
}

// Whether a word starts a negated literal, where those are allowed.
fn is_no(w: &[u8], signed: bool) -> bool
    ensures { result ≡ (signed && same w.now no_word) }
{
    signed && same_word(w, b"(no")
}

// The first item of some words. A negated one takes two of them, where signs are allowed.
// stays (no plainer): `signed` is that of the definition `items signed`; a function for each of its values would read the plain number a second time.
pub fn read_item(words: &[u8], signed: bool) -> Option<Item<'_>>
    ensures { ItemRead signed words.now result }
{
    let (word, left) = cut(words, SPACE);
    if is_no(word, signed) {
        let (number, left) = cut(left?, SPACE);
        let v = closed_number(number)?;
        return Some(Item {
            literal: off(narrow(v)),
            left,
        });
    }
    let v = read_number(word)?;
    Some(Item {
        literal: on(narrow(v)),
        left,
    })
}
