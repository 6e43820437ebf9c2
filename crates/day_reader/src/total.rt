// The total of a day: `(day 1000000)`, and the line that asks for its shares.
ghost use Rattle.std.specs.Prelude.{◌≡◌};
ghost use Rattle.layout.specs.Words.{space, same};
ghost use Rattle.reader.specs.Numbers.{num_of};
ghost use Rattle.reader.specs.Pieces.{pieces};
ghost use Rattle.day_text.specs.Lines.{total_item, total_of, shares_line};

use reader::brackets::inside;
use reader::limit::CEILING;
use reader::number::read_up_to;
use reader::word::{SPACE, cut, same_word};

// The number in the one word that is left, with the digits of a ceiling.
fn total_item(left: Option<&[u8]>) -> Option<u32>
    ensures { num_of result ≡ total_item (pieces space left.entry) }
{
    let (word, more) = cut(left?, SPACE);
    match more {
        Some(_) => None,
        None => read_up_to(word, CEILING),
    }
}

pub fn read_total(l: &[u8]) -> Option<u32>
    ensures { num_of result ≡ total_of l.now }
{
    let (word, left) = cut(inside(l)?, SPACE);
    if same_word(word, b"day") {
        return total_item(left);
    }
    None
}

pub fn is_shares(l: &[u8]) -> bool
    ensures { result ≡ same l.now shares_line }
{
    same_word(l, b"(shares)")
}
