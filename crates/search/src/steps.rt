// What steps 1 to 4 of a visit say.
ghost use Rattle.std.specs.Prelude.{◌≡◌};
ghost use Rattle.search.specs.Search.{is_open, concluded_of};

use inner::Leaf;
use node::{Answer, Position, Verdict, settled, stopped};

// Asked first, and in one test: it is the likely way on from a node.
pub fn is_open(leaf: Leaf) -> bool
    ensures { result ≡ is_open leaf }
{
    matches!(leaf, Leaf::Open)
}

// The answer of a node that a step decided.
pub fn concluded(leaf: Leaf, p: Position) -> Answer
    ensures { result ≡ concluded_of leaf p }
{
    match leaf {
        Leaf::No(b) => settled(Verdict::No, b, p.budget, p.lines),
        Leaf::Yes(b) => settled(Verdict::Yes, b, p.budget, p.lines),
        Leaf::Open => stopped(p.lines), // none did
    }
}
