// One line more of the card: the node that the tables show, with a value at the next place.
ghost use Rattle.std.specs.Prelude.{◌≡◌, Bool, List, [], ◌∷◌, ◌++◌, ◌≤◌, length};
ghost use Rattle.qbf.specs.Formula.{paper, Node, ◌▹◌};
ghost use Rattle.qbf.specs.Card.{byte_of};
ghost use Rattle.cover.specs.Cover.{Covers};
ghost use Rattle.node.specs.Node.{LineTask};

use crate::NodeLines;
use cover::CardLines;

// A line is of a node among the flags; where the next place is none, there is nothing to write.
pub fn add_line<'a>(table: &mut [u8], value: u8, here: NodeLines, statuses: &'a [u8; tables::CODES])
    ensures { (length table.new ≡ length table.old)
        × ((s : Node) (b : Bool) (ls : List Node)
        → LineTask s ls statuses.now table.old here.at here.free here.count
        → value ≡ byte_of b
        → Covers here.free table.new (ls ++ ((s ▹ b) ∷ []))) }
{
    if here.at < here.free {
        let lines = CardLines {
            count: here.count,
            free: here.free,
        };
        cover::push_line(table, lines, statuses, here.at, value);
    }
}
