// A call's line with its ceiling: "`C` stands for an optional last item `(ceiling N)`. .. Without it the ceiling is the highest."
ghost use Rattle.std.specs.Prelude.{◌≡◌};
ghost use Rattle.qbf.specs.Ceiling.{highest_ceiling};
ghost use Rattle.layout.specs.Words.{space, split};
ghost use Rattle.layout.specs.Session.{ceiled_call, call_of};
ghost use Rattle.reader.specs.Ceilings.{limited_line, CeiledRead};

use crate::brackets::inside;
use crate::call::CallLine;
use crate::ending::ended;
use crate::limit::CEILING;
use crate::sized::read_sized;
use crate::text::TEXT;

// The call of a line, and its ceiling; a call that takes none has the highest.
#[derive(Clone, Copy)]
pub struct CeiledLine {
    pub line: CallLine,
    pub ceiling: u32,
}

// "query and either card take a ceiling", and a closest reading: another call with one is no call.
fn limited(line: CallLine, ceiling: u32) -> Option<CeiledLine>
    ensures { result ≡ limited_line line ceiling }
{
    match line {
        CallLine::Query(_) | CallLine::Card(_) | CallLine::KeepCard(_) | CallLine::Closest(_, _) =>
            Some(CeiledLine { line, ceiling }),
        _ => None,
    }
}

fn unlimited(line: CallLine) -> CeiledLine
    ensures { result ≡ record { line = line; ceiling = highest_ceiling } }
{
    CeiledLine {
        line,
        ceiling: tables::HIGHEST_CEILING,
    }
}

// The call between a line's brackets.
// stays (no plainer): as `read_sized`, which it calls for the words before the item.
fn read_ceiled(s: &[u8], out: &mut [i16]) -> Option<CeiledLine>
    ensures { CeiledRead (ceiled_call (split space s.now)) result out.new }
{
    let ending = ended(s, b"(ceiling", CEILING)?;
    let line = read_sized(ending.words, out)?;
    match ending.number {
        Some(n) => limited(line, n),
        None => Some(unlimited(line)),
    }
}

// A line longer than a text may be is no call.
pub fn read_call(l: &[u8], out: &mut [i16]) -> Option<CeiledLine>
    ensures { CeiledRead (call_of l.now) result out.new }
{
    if TEXT < l.len() {
        return None;
    }
    read_ceiled(inside(l)?, out)
}
