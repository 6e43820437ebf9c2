// What a search knows of the clauses at the node it begins with: of each place, and before the first, the row of the clauses satisfied, and of each
// place the mark that its value satisfied one more. There is no dead clause to look for on the way.
#![tactic(auto)]

ghost use Rattle.std.specs.Prelude.{List, ◌≡◌, ℕ, ◌-◌, ◌≤◌, length};
ghost use Rattle.qbf.specs.Formula.{paper, Prefix, Clause, Node};
ghost use Rattle.tables.specs.Matrices.{RowLength};
ghost use Rattle.tables.specs.Sets.{Descended};
ghost use Rattle.loading_start.specs.Started.{FirstRow, StartShown};

use bitset::rows::{clear, insert};
use inner::Given;
use inner::found::true_at;
use inner::step_down::{mark, row_down};
use node::Depth;
use search_entry::Trail;

// Before the first place: the row has every number that is no clause's.
// stays (no plainer): `words` is how much of the table the row is, and the table is longer; a slice of that many words would be cut at both calls, whose contracts are of the table
pub fn first_row(sat: &mut [u64], words: usize, count: usize)
    requires { RowLength words × (words ≤ length sat.old) }
    ensures { FirstRow count words sat.old sat.new }
{
    clear(&mut sat[..words]);
    for i in count..words * bitset::rows::WIDTH {
        insert(sat, 0, i);
    }
}

// The row and the mark of the last place.
fn step<'a>(
    sets: &'a [u64; tables::CLAUSE_SETS],
    statuses: &'a [u8; tables::CODES],
    here: Depth,
    trail: &mut Trail,
)
    requires { 1 ≤ here.at }
    ensures { (D : Prefix) (R : List Clause) (s : Node) (at : ℕ)
        → StartShown D R s here.words at sets.now statuses.now
        → here.at ≤ at
        → Descended D s R here.words trail.old.sat trail.old.marks (here.at - 1)
        → Descended D s R here.words trail.new.sat trail.new.marks here.at }
{
    let given = Given {
        at: here.at,
        code: true_at(statuses, here.at),
        words: here.words,
    };
    let step = row_down(sets, &mut trail.sat, given);
    mark(&mut trail.marks, here.at, step.fresh);
}

// The rows and the marks of the places before a search's start, where there are `count` clauses.
// stays (no plainer): `count` counts the clauses, and measures no table here
pub fn start_rows<'a>(
    sets: &'a [u64; tables::CLAUSE_SETS],
    statuses: &'a [u8; tables::CODES],
    count: usize,
    start: Depth,
    trail: &mut Trail,
)
    ensures { (D : Prefix) (R : List Clause) (s : Node)
        → StartShown D R s start.words start.at sets.now statuses.now
        → length R ≡ count
        → Descended D s R start.words trail.new.sat trail.new.marks (length s) }
{
    first_row(&mut trail.sat, start.words, count);
    for at in 1..=start.at {
        let words = start.words;
        step(sets, statuses, Depth { at, words }, trail);
    }
}
