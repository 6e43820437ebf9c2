// The items of a line, up to the `0` that is its last word. They are all judged and counted, and as many kept as the lent table holds.
ghost use Rattle.reader.specs.Items.{Filled};
ghost use Rattle.qdimacs_form.specs.Lines.{literals};
ghost use Rattle.qdimacs_reader.specs.Words.{words};

use crate::item::{is_zero, read_literal};
use crate::word::next_word;
use literal::put;

pub fn read_literals(left: Option<&[u8]>, signed: bool, out: &mut [i16]) -> Option<usize>
    ensures { Filled (literals signed (words left.entry)) result out.new }
{
    let mut item = next_word(left)?;
    let mut n: usize = 0;
    while let Some(next) = next_word(item.left) {
        // stays (no plainer): a word is an item only where another follows, so it goes from word to word with the one before.
        let x = read_literal(item.word, signed)?;
        put(out, n, x);
        n += 1;
        item = next;
    }
    is_zero(item.word).then_some(n)
}
