// Steps 2 and 4: the oldest constraint on a shelf that ends in the literal of the node's last place which has the truth value asked for,
// and all of whose literals have it. Its row goes up by its bounds.
ghost use Rattle.std.specs.Prelude.{◌≡◌, Bool, List, map, ℕ, ◌≤◌, ◌<◌, length, eqb};
ghost use Rattle.std.specs.Bool.{beq};
ghost use Rattle.std.proofs.Math.Option.{some};
ghost use Rattle.qbf.specs.Formula.{highest, Prefix, Node, value_at};
ghost use Rattle.qbf.specs.Learning.{Constraint, eligible_match};
ghost use Rattle.tables.specs.Codes.{code_at, codes, Statuses};
ghost use Rattle.tables.specs.Shelves.{code_count};
ghost use Rattle.shelf.specs.Standing.{rows};
ghost use Rattle.inner.specs.Inner.{FoundCoded, LastGiven, Worded};

use coding::code::opposite;
use literal::wanted;
use search_entry::{Bounds, Source};
use shelf::Shelf;

// The code of the true literal of a place that has a value.
// stays (no plainer): `usize ≤ highest.numbers` is asked of a place alone: `Given` and `Depth` keep more than that, a code or a row's words, and `literal::Place` is of any limit and keeps
// no fact; a struct of one number that did would be made at each call and opened at the index
pub fn true_at<'a>(statuses: &'a [u8; tables::CODES], place: usize) -> u16
    requires { place ≤ highest.numbers }
    ensures { (result < code_count)
        × ((s : Node) (b : Bool) → Statuses s statuses.now → value_at s place ≡ some b → result ≡ code_at place b) }
{
    let code = place * 2 + 1;
    if statuses[code] == tables::ON {
        return code as u16;
    }
    (place * 2) as u16
}

// stays (no plainer): `u16 < code_count` is of a number that is made of a place or read from a row's cell, and is an index of a table: a type of it would be made at each of those, and opened at each index
// The code of the literal of a place that holds in a cube, or fails in a clause, by that of its true literal.
// stays (no plainer): the polarity is a value of the definitions, and the code is that of one of two literals by it
fn last_in(code: u16, cube: bool) -> u16
    requires { code < code_count }
    ensures { (result < code_count) × ((p : ℕ) (b : Bool) → code ≡ code_at p b → result ≡ code_at p (beq b cube)) }
{
    if cube {
        return code;
    }
    opposite(code)
}

// The oldest of the learned constraints of a polarity that is eligible at an inner node, whose last value makes the code's literal true, and
// whose literals all have the truth value asked for; the word is of the literals that have it.
pub fn lookup<'a>(
    shelf: &'a Shelf,
    statuses: &'a [u8; tables::CODES],
    code: u16,
    cube: bool,
    word: u64,
) -> Option<Bounds>
    requires { code < code_count }
    ensures { (D : Prefix) (s : Node) (at : ℕ) (es : List Constraint) (clauses area : List ℕ)
        → Statuses s statuses.now
        → LastGiven s at code
        → Worded s cube word
        → 1 ≤ at
        → rows shelf.now ≡ map (codes D) es
        → FoundCoded D result clauses shelf.now.cells.now area (eligible_match D eqb cube s es) }
{
    // stays (no plainer): with `map` the goal `invariant_of-result` stays open until the closure has `requires { slot < paper.constraints }`, which the arm has of `find`; then it is as long
    match shelf.find(last_in(code, cube), statuses, wanted(cube), word) {
        Some(slot) => {
            let row = shelf.row_in(slot);
            Some(Bounds {
                source: Source::Learned,
                start: slot * (tables::HIGHEST_NUMBERS + 1) + 1,
                len: row.len(),
            })
        }
        None => None,
    }
}
