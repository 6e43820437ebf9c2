// The positions of a node's two sides, and where its last place has a value.
ghost use Rattle.std.specs.Prelude.{◌≡◌, suc, ◌+◌, ◌-◌, ◌≤◌, ◌<◌};
ghost use Rattle.qbf.specs.Formula.{highest};
ghost use Rattle.search.specs.Search.{given_at};

use node::Position;
use shelf::mask::bit;

// That of the off side, where this visit is counted, and that of the on side.
pub fn to_off(p: Position) -> Position
    requires { p.at < suc highest.numbers }
    ensures { result ≡ record p { at = p.at + 1; budget = p.budget - 1 } }
{
    let mut below = p;
    below.at = p.at + 1;
    below.budget = p.budget.saturating_sub(1);
    below
}

pub fn to_on(p: Position, budget: u64, lines: usize) -> Position
    requires { p.at < suc highest.numbers }
    ensures { result ≡ record p { at = p.at + 1; budget = budget; lines = lines } }
{
    let mut below = p;
    below.at = p.at + 1;
    below.budget = budget;
    below.lines = lines;
    below
}

// The position where its last place has the value: its two literals have their bits.
pub fn given(p: Position, value: u8) -> Position
    requires { p.at ≤ highest.numbers }
    ensures { result ≡ given_at value p }
{
    let on = value == tables::ON;
    let off = !on;
    let holds = bit((p.at * 2 + on as usize) as u16);
    let fails = bit((p.at * 2 + off as usize) as u16);
    let mut here = p;
    here.held = p.held | holds;
    here.failed = p.failed | fails;
    here
}
