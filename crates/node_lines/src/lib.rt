// The lines of a card that the sides of a node add or take back.
#![tactic(auto)]

ghost use Rattle.std.specs.Prelude.{◌≡◌, Bool, true, false, cond, List, [], ◌∷◌, ◌++◌, ◌+◌, ◌^◌, ◌≤◌, ◌<◌, length};
ghost use Rattle.qbf.specs.Formula.{highest, Node, ◌▹◌};
ghost use Rattle.qbf.specs.Card.{byte_of};
ghost use Rattle.cover.specs.Cover.{Covers};
ghost use Rattle.node.specs.Node.{LineTask, lined_of, settled_lines, SettledTo};

use cover::CardLines;
use node::Verdict;
use node::side::is_of;

mod line; // one line more

// Where a node's lines stand: its length, the count of the free variables, and the lines so far.
#[derive(Clone, Copy)]
pub struct NodeLines {
    pub at: usize,
    pub free: usize,
    pub count: usize,
    pub ghost few: { free ≤ highest.numbers },
}

// Whether a side of that verdict is a line by itself, the lines being Yes nodes or No nodes: below the free variables there are none.
pub fn lined(v: Verdict, kind: u16, yes: bool) -> bool
    ensures { result ≡ lined_of kind yes v }
{
    let free = kind == tables::FREE;
    if free {
        return is_of(v, yes);
    }
    false
}

// A line more where the side with that value is one.
// stays (no plainer): the choice would stand in `sides` of the search, whose proof would say of the table, where the two ways meet, what this contract says
pub fn line_if<'a>(
    one: bool,
    value: u8,
    table: &mut [u8],
    here: NodeLines,
    statuses: &'a [u8; tables::CODES],
) -> usize
    requires { here.count < 2 ^ 63 }
    ensures table_len_unchanged { (length table.new ≡ length table.old)
        × (result ≡ cond one (here.count + 1) here.count)
        × (one ≡ false → table.new ≡ table.old) }
    ensures covers { (s : Node) (b : Bool) (ls : List Node)
        → LineTask s ls statuses.now table.old here.at here.free here.count
        → value ≡ byte_of b
        → Covers here.free table.new (ls ++ cond one ((s ▹ b) ∷ []) []) }
{
    if !one {
        return here.count;
    }
    line::add_line(table, value, here, statuses);
    here.count + 1
}

// stays (no plainer): each bool is what `lined` says of one side; an enum of the three cases would be made by a match of the same two, and matched here again
// After both sides: two lines are one line above, so the off side's line is taken back; else the on side's line is added where it is one.
pub fn settle_lines<'a>(
    first: bool,
    second: bool,
    table: &mut [u8],
    here: NodeLines,
    statuses: &'a [u8; tables::CODES],
) -> usize
    requires { (here.count < 2 ^ 63) × (first ≡ true → second ≡ true → 1 ≤ here.count) }
    ensures table_len_unchanged { (length table.new ≡ length table.old)
        × (result ≡ settled_lines first second here.count)
        × (second ≡ false → table.new ≡ table.old) }
    ensures settled_to { (s : Node) (ls : List Node)
        → LineTask s ls statuses.now table.old here.at here.free here.count
        → SettledTo first second s ls here.free table.new }
{
    match (first, second) {
        (_, false) => here.count,
        (true, true) => {
            let lines = CardLines {
                count: here.count,
                free: here.free,
            };
            cover::pop_line(table, lines);
            here.count - 1
        }
        (false, true) => {
            line::add_line(table, tables::ON, here, statuses);
            here.count + 1
        }
    }
}
