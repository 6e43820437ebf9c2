// The brackets of a line.
ghost use Rattle.reader.specs.Lines.{InsideIs};

use crate::word::{CLOSING, OPENING};

// What stands between a line's brackets.
pub fn inside(l: &[u8]) -> Option<&[u8]>
    ensures { InsideIs l.now result }
{
    match l {
        [OPENING, inside @ .., CLOSING] => Some(inside),
        _ => None,
    }
}
