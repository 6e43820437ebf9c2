// "Joining unites the two without v, reduces, stores the result and sends it up."
ghost use Rattle.std.specs.Prelude.{◌≡◌, true, List, map, suc, ◌≤◌, ◌<◌};
ghost use Rattle.qbf.specs.Formula.{Prefix};
ghost use Rattle.qbf.specs.Learning.{Constraint, resolvent, last_place};
ghost use Rattle.qbf.specs.Calls.{in_order};
ghost use Rattle.tables.specs.Codes.{codes, Quantified};
ghost use Rattle.shelf.specs.Standing.{Room, rows, newest};
ghost use Rattle.search_entry.specs.Entry.{entry_at};
ghost use Rattle.node.specs.Node.{bounds_of, rebound_of, is_of, Fits};
ghost use Rattle.both_sides.specs.Step.{JoinedSides, OfSide};

use crate::Aside;
use node::side::is_of;
use node::{Answer, bounds_of};
use resolution::{ends_next, resolve, store};
use search_entry::{Bounds, Matrix, entry};
use shelf::Shelf;

// The answer with another constraint.
// stays (speed): an answer is built field by field, which took 4 to 10 % off a visit (docs/DECISIONS.md); a struct of the three inside it would be copied whole
fn with_bounds(on: Answer, b: Bounds) -> Answer
    ensures { result ≡ rebound_of on b }
{
    Answer {
        verdict: on.verdict,
        source: b.source,
        start: b.start,
        len: b.len,
        budget: on.budget,
        lines: on.lines,
    }
}

// stays (no plainer): `Room Shelf` is used up, a number by each row that is stored: a shelf that kept it could not be written to
// "the on side's entry goes up if it lacks v, else the two are joined"; the resolvent is made in an area of its own, and goes up as its row. The shelf is
// that of the on side's polarity.
#[inline(always)]
pub fn join<'a>(
    off: Aside<'a>,
    on: Answer,
    matrix: &'a Matrix,
    area: &'a [u16; tables::CODES_AREA],
    made: &mut [u16; tables::CODES_AREA],
    learned: &mut Shelf,
) -> Answer
    requires { Room learned.old }
    ensures { OfSide on result
        × (newest learned.new ≤ suc (newest learned.old))
        × ((D : Prefix) (e f : Constraint) (es : List Constraint)
        → Quantified D matrix.now.quantifiers
        → off.entry.codes.now ≡ codes D e
        → entry_at (bounds_of on) matrix.now.rows learned.old.cells.now area.now ≡ codes D f
        → in_order D 0 e ≡ true
        → in_order D 0 f ≡ true
        → last_place D e ≤ suc off.entry.at
        → last_place D f ≤ suc off.entry.at
        → Fits D (resolvent D (suc off.entry.at) (is_of true on.verdict) e f)
        → rows learned.old ≡ map (codes D) es
        → JoinedSides
        D
        (suc off.entry.at)
        (is_of true on.verdict)
        e
        f
        es
        (entry_at (bounds_of result) matrix.now.rows learned.new.cells.now area.now)
        (rows learned.new)
        (newest learned.old)
        (newest learned.new)) }
{
    let cells = &*learned.cells;
    let row = entry(&matrix.rows, cells, area, bounds_of(on));
    let ends = ends_next(row, off.at);
    let lacks = !ends;
    if lacks {
        return on;
    }
    let cube = is_of(on.verdict, true);
    let len = resolve(made, off.codes, row, off.at, &matrix.quantifiers, cube);
    with_bounds(on, store(learned, &made[..len]))
}
