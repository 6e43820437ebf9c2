// Step 3, second half: "The pass has from each rule its true literal of smallest place, reduced": the true literals of the marked places, in place order.
ghost use Rattle.std.specs.Prelude.{◌≡◌, true, cond, List, [], ◌∷◌, ◌++◌, ◌+◌, ◌≤◌, ◌<◌, eqb, length, take};
ghost use Rattle.qbf.specs.Formula.{highest, Prefix, Clause, Node, all, satisfied};
ghost use Rattle.qbf.specs.Learning.{Store, implicant, reduce};
ghost use Rattle.tables.specs.Codes.{codes, Statuses, Quantified};
ghost use Rattle.inner.specs.Formed.{Formed};
ghost use Rattle.tables.specs.Sets.{MarkedSteps, marked_from};

use crate::found::true_at;
use coding::list::reduced_len;

// stays (no plainer): `usize ≤ highest.numbers` is asked of a place alone: `Given` and `Depth` keep more than that, a code or a row's words, and `literal::Place` is of any limit and keeps
// no fact; a struct of one number that did would be made at each call and opened at the index
// The true literals of the marked places among the first `at`, in place order.
fn marked_codes<'a>(
    marks: &'a [u8; tables::HIGHEST_BY_NUMBER],
    statuses: &'a [u8; tables::CODES],
    at: usize,
    up: &mut [u16; tables::CODES_AREA],
) -> usize
    requires { at ≤ highest.numbers }
    ensures { (result ≤ at)
        × ((s : Node)
        → Statuses s statuses.now
        → length s ≡ at
        → take result up.new ≡ marked_from 1 s marks.now) }
{
    let mut n: usize = 0;
    // stays (no plainer): the count is the answer, and grows with the places that are marked; a numbered chain over a filter would have to be counted again at its end
    for (i, mark) in marks[1..at + 1].iter().enumerate() {
        up[n] = true_at(statuses, i + 1);
        n += (*mark == 1) as usize;
    }
    n
}

// The cube of a node that satisfies every clause, in the first cells of the area.
pub fn cube<'a>(
    marks: &'a [u8; tables::HIGHEST_BY_NUMBER],
    statuses: &'a [u8; tables::CODES],
    quantifiers: &'a [u8; tables::CODES],
    at: usize,
    up: &mut [u16; tables::CODES_AREA],
) -> usize
    requires { at ≤ highest.numbers }
    ensures { (result ≤ highest.numbers)
        × ((D : Prefix) (R : List Clause) (s : Node) (st : Store)
        → Statuses s statuses.now
        → Quantified D quantifiers.now
        → Formed D R st
        → length s ≡ at
        → MarkedSteps D s R marks.now at
        → all (satisfied D s) R ≡ true
        → take result up.new ≡ codes D (reduce D true (implicant D s R []))) }
{
    let n = marked_codes(marks, statuses, at, up);
    reduced_len(&up[..n], quantifiers, true)
}
