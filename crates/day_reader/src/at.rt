// A call at a place: `(at 1 (card))`. What stands behind the place is the line of a call, which a session's reader takes.
ghost use Rattle.std.specs.Prelude.{◌≡◌};
ghost use Rattle.day_text.specs.Lines.{at_of};
ghost use Rattle.day_reader.specs.Read.{at_is};
ghost use Rattle.day_reader.specs.Placed.{at_items};

use reader::brackets::inside;
use reader::number::read_number;
use reader::word::{SPACE, cut, same_word};

// Any number may stand as the place: which has a book, and which there is, is judged by the call.
#[derive(Clone, Copy)]
pub struct AtLine<'a> {
    pub place: usize,
    pub call: &'a [u8],
}

// The place, and the call's line behind it.
fn at_items(s: &[u8]) -> Option<AtLine<'_>>
    ensures { at_is result ≡ at_items s.now }
{
    let (word, left) = cut(s, SPACE);
    let place = read_number(word)? as usize;
    let call = left?;
    Some(AtLine { place, call })
}

pub fn read_at(l: &[u8]) -> Option<AtLine<'_>>
    ensures { at_is result ≡ at_of l.now }
{
    let (word, left) = cut(inside(l)?, SPACE);
    if same_word(word, b"at") {
        return at_items(left?);
    }
    None
}
