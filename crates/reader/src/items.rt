// The items of a line. A line has up to 32,768 of them; they are all judged and counted, and as many kept as the lent table holds.
ghost use Rattle.layout.specs.Words.{space};
ghost use Rattle.layout.specs.Forms.{items};
ghost use Rattle.reader.specs.Pieces.{pieces};
ghost use Rattle.reader.specs.Items.{Filled};

use crate::item::read_item;
use literal::put;

// The items of the words that are left: how many there are.
pub fn read_items(words: Option<&[u8]>, signed: bool, out: &mut [i16]) -> Option<usize>
    ensures { Filled (items signed (pieces space words.entry)) result out.new }
{
    let mut left = words;
    let mut n: usize = 0;
    while let Some(next) = left {
        // stays (no plainer): it goes down the words that are left, of which an item takes one or two.
        let item = read_item(next, signed)?;
        put(out, n, item.literal);
        n += 1;
        left = item.left;
    }
    Some(n)
}
