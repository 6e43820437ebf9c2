// Words of a line. "runs of spaces stand only between items"
ghost use Rattle.std.specs.Prelude.{◌≡◌};
ghost use Rattle.qdimacs_form.specs.Lines.{edged};
ghost use Rattle.qdimacs_reader.specs.Words.{NextWord};

use reader::word::{SPACE, cut};

// A word, and what is left of the line behind the space after it.
#[derive(Clone, Copy)]
pub struct Word<'a> {
    pub word: &'a [u8],
    pub left: Option<&'a [u8]>,
}

// The first word of what is left of a line.
pub fn next_word(line: Option<&[u8]>) -> Option<Word<'_>>
    ensures { NextWord line.entry result }
{
    let mut left = line;
    while let Some(l) = left {
        // stays (no plainer): a `for` over words has each word, and not what is left behind it, which is answered too.
        let (word, more) = cut(l, SPACE);
        if !word.is_empty() {
            return Some(Word { word, left: more });
        }
        left = more;
    }
    None
}

// Whether a line has a byte, and neither its first nor its last is a space.
pub fn is_edged(l: &[u8]) -> bool
    ensures { result ≡ edged l.now }
{
    let n = l.len();
    if n == 0 {
        return false;
    }
    if l[0] == SPACE {
        return false;
    }
    l[n - 1] != SPACE
}
