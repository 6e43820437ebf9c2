// Steps 2 and 4 of a visit at the start node: whether a learned constraint decides it. Eligible there is what ends at most at the node's length.
ghost use Rattle.std.specs.Prelude.{◌≡◌, length};
ghost use Rattle.qbf.specs.Formula.{Prefix, Node, all, any, has};
ghost use Rattle.tables.specs.Views.{Places, Values, rows_of};
ghost use Rattle.search_start.specs.Match.{matching};

use constraint::mention::last_place;
use lent_rows::LentRows;
use literal::{ByNumber, status_of, wanted};

fn all_have(lits: &[i16], values: &[u8], cube: bool) -> bool
    ensures { (D : Prefix) (s : Node) → Values D s values.now → result ≡ all (has D cube s) lits.now }
{
    let want = wanted(cube);
    lits.iter().all(|lit| status_of(values, *lit) == want)
}

// The last place is tried before the literals, since most rows fail there.
fn is_match(lits: &[i16], shown: ByNumber, cube: bool, at: usize) -> bool
    ensures { (D : Prefix) (s : Node)
        → Places D shown.entry.places.now
        → Values D s shown.entry.values.now
        → length s ≡ at
        → result ≡ matching D cube s lits.now }
{
    let eligible = last_place(lits, shown.places) <= at;
    eligible && all_have(lits, shown.values, cube)
}

// Whether a row is eligible at the start node, which has `at` places, and all its literals have the truth value of the polarity.
pub fn any_match(learned: LentRows, shown: ByNumber, cube: bool, at: usize) -> bool
    ensures { (D : Prefix) (s : Node)
        → Places D shown.entry.places.now
        → Values D s shown.entry.values.now
        → length s ≡ at
        → result
        ≡ any
        (matching D cube s)
        (rows_of learned.entry.width learned.entry.cells.now learned.entry.sizes.now) }
{
    learned.rows().any(|row| is_match(row, shown, cube, at))
}
