// A text that is skipped: where its line `(end)` ends, however the bytes come.
#![tactic(auto)]

ghost use Rattle.std.specs.Prelude.{◌≡◌};
ghost use Rattle.text_skip.specs.Skip.{next_seen, skip_from};

use reader::word::NEWLINE;

const END: [u8; 5] = *b"(end)";

// What the line that is being read is seen to be where it is another one.
const OTHER: usize = END.len() + 1;

// How many bytes the text has up to and with its line `(end)`; or how many bytes of the line that is being read are those of that line.
#[derive(Clone, Copy)]
pub enum Skipped {
    Ended(usize),
    Inside(usize),
}

fn next_seen(seen: usize, b: u8) -> usize
    ensures { result ≡ next_seen seen b }
{
    match END.get(seen) {
        Some(wanted) if b == *wanted => seen + 1,
        _ => OTHER,
    }
}

// Bytes of a text behind others, of whose last line so much was seen; 0 at its start.
pub fn skip(text: &[u8], seen: usize) -> Skipped
    ensures { result ≡ skip_from 0 seen text.now }
{
    let mut here = seen;
    for (i, b) in text.iter().enumerate() {
        if *b != NEWLINE {
            here = next_seen(here, *b);
        } else if here == END.len() {
            return Skipped::Ended(i + 1);
        } else {
            here = 0;
        }
    }
    Skipped::Inside(here)
}
