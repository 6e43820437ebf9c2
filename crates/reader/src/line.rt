// A line of a text, without its byte 10. "Nested brackets, one form a line, one space between items"
ghost use Rattle.std.specs.Prelude.{◌≡◌, suc, min};
ghost use Rattle.qbf.specs.Formula.{paper};
ghost use Rattle.layout.specs.Words.{space, split};
ghost use Rattle.layout.specs.Forms.{form_from, form_of};
ghost use Rattle.reader.specs.Lines.{LineRead};

use crate::brackets::inside;
use crate::items::read_items;
use crate::keyword::{Line, line_of, word_of};
use crate::word::{SPACE, cut};

// The form between a line's brackets.
pub fn read_form(s: &[u8], out: &mut [i16]) -> Option<Line>
    ensures { LineRead (form_from (split space s.now)) result out.new }
{
    let (word, left) = cut(s, SPACE);
    let w = word_of(word)?;
    let n = read_items(left, w.takes_signs(), out)?;
    line_of(w, n)
}

// How many of n items stand in a table with one cell more than there are variables: enough to decide.
pub fn kept(n: usize) -> usize
    ensures { result ≡ min n (suc paper.numbers) }
{
    n.min(tables::BY_NUMBER)
}

pub fn read_line(l: &[u8], out: &mut [i16]) -> Option<Line>
    ensures { LineRead (form_of l.now) result out.new }
{
    read_form(inside(l)?, out)
}
