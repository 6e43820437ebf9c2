// A call's line before its ceiling: "`(bytes B)` optional", the size of a closest reading's table.
ghost use Rattle.std.specs.Prelude.{◌≡◌};
ghost use Rattle.layout.specs.Words.{space, split};
ghost use Rattle.layout.specs.Session.{sized_call};
ghost use Rattle.reader.specs.Calls.{CallRead};
ghost use Rattle.reader.specs.Sized.{sized_line};

use crate::call::{CallLine, read_words};
use crate::ending::ended;
use crate::limit::SIZE;

// Another call with such an item is no call.
fn with_table(line: CallLine, size: usize) -> Option<CallLine>
    ensures { result ≡ sized_line line size }
{
    match line {
        CallLine::Closest(n, _) => Some(CallLine::Closest(n, size)),
        _ => None,
    }
}

// stays (no plainer): one function for this and for the ceiling would take the words, the table, the item's word and limit, what reads the words before it and
// what its number makes of them: six parameters, two of them closures, for two calls.
pub fn read_sized(s: &[u8], out: &mut [i16]) -> Option<CallLine>
    ensures { CallRead (sized_call (split space s.now)) result out.new }
{
    let ending = ended(s, b"(bytes", SIZE)?;
    let line = read_words(ending.words, out)?;
    match ending.number {
        Some(n) => with_table(line, n as usize),
        None => Some(line),
    }
}
