// An item that may end a call's line, by its word and the form of its number: "an optional last item `(ceiling N)`", and before it
// `(bytes B)`.
ghost use Rattle.std.specs.Prelude.{◌≡◌, ◌≤◌, length};
ghost use Rattle.layout.specs.Words.{space, split};
ghost use Rattle.layout.specs.Endings.{number_up_to, last_item, ended};
ghost use Rattle.reader.specs.Numbers.{num_of};
ghost use Rattle.reader.specs.Pieces.{pieces};
ghost use Rattle.reader.specs.Endings.{Before, BegunRead, EndedRead};

use crate::limit::Limit;
use crate::number::closed_within;
use crate::word::{SPACE, cut, same_word};

// The words before such an item, all of them where there is none, and its number.
#[derive(Clone, Copy)]
pub struct Ending<'a> {
    pub words: &'a [u8],
    pub number: Option<u32>,
}

// Where the item's word stands: the words before it, none where it is the first, and what is left behind it.
#[derive(Clone, Copy)]
struct Begun<'a> {
    before: Option<&'a [u8]>,
    left: Option<&'a [u8]>,
}

// The words before the last ones.
fn before<'a>(s: &'a [u8], words: &[u8]) -> Option<&'a [u8]>
    requires { length words.now ≤ length s.now }
    ensures { Before s.now (length words.now) result }
{
    let at = s.len() - words.len();
    if at == 0 {
        return None;
    }
    Some(&s[..at - 1])
}

// The first word that is the item's, if one is.
fn first_item<'a>(s: &'a [u8], word: &[u8]) -> Option<Begun<'a>>
    ensures { BegunRead word.now s.now result }
{
    let mut left = Some(s);
    while let Some(words) = left {
        // stays (no plainer): a `for` over words has each word, and not what is left behind it, which is the answer and tells what stands before it.
        let (first, behind) = cut(words, SPACE);
        if same_word(first, word) {
            return Some(Begun {
                before: before(s, words),
                left: behind,
            });
        }
        left = behind;
    }
    None
}

// The number in the one word that is left behind the item's.
// stays (no plainer): the total of a day is read likewise (`day_reader::total`) by `read_up_to`, without the bracket that ends an item here: a function of both would take that reader as a closure, for
// one line that differs
// stays (no plainer): the total of a day is read likewise (`day_reader::total`), by `read_up_to`, without the bracket that ends an item here: a function of both would take the reader as a closure,
// for the one line that differs
fn last_item(left: Option<&[u8]>, limit: Limit) -> Option<u32>
    ensures { num_of result ≡ last_item (number_up_to limit.digits limit.top) (pieces space left.entry) }
{
    let (word, more) = cut(left?, SPACE);
    match more {
        Some(_) => None,
        None => closed_within(word, limit),
    }
}

// Words outside the form have no answer.
pub fn ended<'a>(s: &'a [u8], word: &[u8], limit: Limit) -> Option<Ending<'a>>
    ensures { EndedRead (ended word.now (number_up_to limit.digits limit.top) (split space s.now)) result }
{
    let Some(item) = first_item(s, word) else {
        return Some(Ending {
            words: s,
            number: None,
        });
    };
    let n = last_item(item.left, limit)?;
    Some(Ending {
        words: item.before?,
        number: Some(n),
    })
}
