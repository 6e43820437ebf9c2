// The words of the literals at the start node.
ghost use Rattle.std.specs.Prelude.{◌≡◌, ◌*◌, ◌≤◌, true, false, length};
ghost use Rattle.qbf.specs.Formula.{highest, Node};
ghost use Rattle.tables.specs.Codes.{Statuses};
ghost use Rattle.inner.specs.Inner.{Worded};

use coding::code::opposite;
use inner::found::true_at;
use shelf::mask::bit;

// That of the literals that are true at a node of so many places, and that of those that are false.
// stays (no plainer): `usize ≤ highest.numbers` is of one number that says how far a table is read; a type for it would be taken off at that table
pub fn words_at(statuses: &[u8; tables::CODES], at: usize) -> (u64, u64)
    requires { at ≤ highest.numbers }
    ensures { (s : Node) → Statuses s statuses.now → length s ≡ at → Worded s true result.0 × Worded s false result.1 }
{
    let mut held = 0;
    let mut failed = 0;
    // stays (no plainer): the places are no table's
    for i in 0..at {
        let code = true_at(statuses, i + 1);
        held = held | bit(code);
        failed = failed | bit(opposite(code));
    }
    (held, failed)
}
