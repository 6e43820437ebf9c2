// What the line at a place asks for, as the accounts that do not stand tell it apart.
ghost use Rattle.std.specs.Prelude.{◌≡◌};
ghost use Rattle.day_lines.specs.Asked.{kind_in, kind_read};

use reader::call::CallLine;
use session_lines::asked::SessionLine;

// The book's text or a page; a call whose lines are a card; any other call.
#[derive(Clone, Copy)]
pub enum Kind {
    Reads,
    Lists,
    Calls,
}

fn kind_of_call(line: CallLine) -> Kind
    ensures { result ≡ kind_in line }
{
    match line {
        CallLine::Card(_) | CallLine::KeepCard(_) | CallLine::Closest(_, _) => Kind::Lists,
        _ => Kind::Calls,
    }
}

pub fn kind_of(line: SessionLine) -> Kind
    ensures { result ≡ kind_read line }
{
    match line {
        SessionLine::Reads(_) => Kind::Reads,
        SessionLine::Makes(read) => kind_of_call(read.line),
    }
}
