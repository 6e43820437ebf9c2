// The flags that a query names, told apart by their signs: "on flags as numbers, off flags as `(no ..)`, in any order". The literals of a line
// stand in one table, in the order given; each sign's numbers are taken from it in turn.
#![tactic(auto)]

ghost use Rattle.std.specs.Prelude.{◌≡◌, pos};
ghost use Rattle.std.specs.Bool.{beq};
ghost use Rattle.qbf.specs.Formula.{number_of, positive};
ghost use Rattle.layout.specs.Session.{named};
ghost use Rattle.reader.specs.Items.{narrow, Kept};

use literal::{number_of, put};
use reader::item::narrow;

// Whether a literal has the sign.
fn is_of(l: i16, on: bool) -> bool
    ensures { result ≡ beq on (positive l) }
{
    (l >= 0) == on
}

// Its number, narrowed as the items of a line are.
fn number_in(l: i16) -> i16
    ensures { result ≡ pos (narrow (number_of l)) }
{
    let n = number_of(l).0;
    reader::item::on(narrow(n as u32))
}

// The numbers of the literals of one sign, in their order.
pub fn named(lits: &[i16], on: bool, out: &mut [i16]) -> usize
    ensures { Kept result out.new (named on lits.now) }
{
    let mut n: usize = 0;
    // stays (no plainer): the count is the answer, and grows with the literals kept; a numbered chain over a filter would have to be counted again at its end
    for l in lits {
        if is_of(*l, on) {
            put(out, n, number_in(*l));
            n += 1;
        }
    }
    n
}
