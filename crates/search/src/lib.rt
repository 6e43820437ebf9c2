// The learning search below a start node that its own steps 1 to 4 leave open: a visit of a node, the branch on its next variable, and a side of it,
// which call one another over lent tables; the number of open places falls. What a search changes is lent and handed back: no table is copied. Each
// place has its row of satisfied clauses, its mark and its row of what is put aside, and nothing of them is undone. The budget goes down with the
// position, and what is left of it comes back with the answer. Where none is left the visit is not made: that goes up as Mixed, joining nothing and
// storing nothing, so every table is handed back as at any end.
//
// A level of the search is one call in the compiled code: `visit` is called from the start and from each side, and the others become a part of it.
// The compiler does that for a function that is called from one place, or is short, where it takes the call to be likely; `sides`, which the three visitors
// call, is marked for it. bench/ sees it.
#![tactic(auto)]

ghost use Rattle.std.specs.Prelude.{suc, ◌≤◌, length};
ghost use Rattle.qbf.specs.Formula.{exists, forall, free};
ghost use Rattle.tables.specs.Views.{quantifier_code};
ghost use Rattle.search.specs.Visitors.{MayVisit, MayBranch, MayTurn, MayGoDown, Leaves, Follows, Reaches, GoesDown};

use below::{given, to_off, to_on};
use both_sides::{finish, put_by};
use coding::statuses::restore;
use inner::{Leaf, conclude};
use node::{
    Answer, Depth, OffSide, Position, Verdict, entry_of, next_kind, settled, stopped, up_or_aside,
    with_lines,
};
use node_lines::{NodeLines, line_if, lined, settle_lines};
use search_entry::{Bounds, Matrix, Search, Source};
use steps::{concluded, is_open};
use value::give_value;

mod below; // the positions of a node's two sides, and where its last place has a value
mod steps; // what steps 1 to 4 of a visit say
mod value; // the value of a side's last place

// The search at a start node, where steps 1 to 4 have been taken and leave it open: its visit is counted, and it branches.
pub fn start<'a>(matrix: &'a Matrix, search: &mut Search, table: &mut [u8], p: Position) -> Answer
    requires { MayBranch search.old p }
    ensures left { Leaves p.at p result search.old table.old search.new table.new }
    ensures followed { Follows p result matrix.now search.old table.old search.new table.new }
{
    visit(matrix, search, table, p, true)
}

// stays (speed): with `start` on `branch`, which is then called from two places, a level is two calls, and a card took 1.15 times as long (docs/DECISIONS.md)
// At an inner node: steps 1 to 4, else step 5; at the start node, where they have been taken, step 5. "The walk stops before the visit that would exceed" the ceiling.
#[cycle(branch_exists_forall_free_side_sides_visit)]
fn visit<'a>(
    matrix: &'a Matrix,
    search: &mut Search,
    table: &mut [u8],
    p: Position,
    at_start: bool,
) -> Answer
    requires { MayVisit at_start search.old p }
    ensures left { Leaves p.at p result search.old table.old search.new table.new }
    ensures reached { Reaches at_start p result matrix.now search.old table.old search.new table.new }
{
    let spent = p.budget <= 1;
    if spent {
        return stopped(p.lines);
    }
    let leaf = if at_start {
        Leaf::Open
    } else {
        let here = Depth {
            at: p.at,
            words: p.words,
        };
        let statuses = &*search.statuses;
        let trail = &mut *search.trail;
        conclude(
            matrix,
            &search.learned,
            statuses,
            trail,
            here,
            p.held,
            p.failed,
        )
    };
    if is_open(leaf) {
        let below = branch(matrix, search, table, p);
        return with_lines(below, below.lines); // not copied whole: see `side`
    }
    concluded(leaf, p)
}

// "5. Branch on the next variable v, off first", at a node that steps 1 to 4 leave open: the visitor of the variable's quantifier. Where no place is left
// a clause is dead or all are satisfied.
#[cycle(branch_exists_forall_free_side_sides_visit)]
fn branch<'a>(matrix: &'a Matrix, search: &mut Search, table: &mut [u8], p: Position) -> Answer
    requires { MayBranch search.old p }
    ensures left { Leaves (suc p.at) p result search.old table.old search.new table.new }
    ensures followed { Follows p result matrix.now search.old table.old search.new table.new }
{
    let kind = next_kind(&matrix.quantifiers, p.at);
    if kind > tables::FORALL {
        let nowhere = Bounds {
            source: Source::Area,
            start: 0,
            len: 0,
        };
        return settled(Verdict::No, nowhere, p.budget, p.lines);
    }
    if kind == tables::FREE {
        free(matrix, search, table, p)
    } else if kind == tables::EXISTS {
        exists(matrix, search, table, p)
    } else {
        forall(matrix, search, table, p)
    }
}

// "An exists node visits the off side and stops on Yes".
// stays (form): the visitors of the three quantifiers are over one body
// stays (no plainer): `matrix, search, table` go through the visitors together; a struct of them would be taken apart at each call out of the cycle, as `conclude`, `finish`, `give`
// and `line_if` take a part of one or two of them
#[cycle(branch_exists_forall_free_side_sides_visit)]
fn exists<'a>(matrix: &'a Matrix, search: &mut Search, table: &mut [u8], p: Position) -> Answer
    requires { MayTurn (quantifier_code exists) matrix.now search.old p }
    ensures left { Leaves (suc p.at) p result search.old table.old search.new table.new }
    ensures followed { Follows p result matrix.now search.old table.old search.new table.new }
{
    sides(matrix, search, table, p, tables::EXISTS)
}

// "A forall node visits the off side and stops on No".
// stays (form): the visitors of the three quantifiers are over one body
#[cycle(branch_exists_forall_free_side_sides_visit)]
fn forall<'a>(matrix: &'a Matrix, search: &mut Search, table: &mut [u8], p: Position) -> Answer
    requires { MayTurn (quantifier_code forall) matrix.now search.old p }
    ensures left { Leaves (suc p.at) p result search.old table.old search.new table.new }
    ensures followed { Follows p result matrix.now search.old table.old search.new table.new }
{
    sides(matrix, search, table, p, tables::FORALL)
}

// "flag: an off side of No or Yes whose bar or pass lacks v goes up"; else both sides are visited.
// stays (form): the visitors of the three quantifiers are over one body
#[cycle(branch_exists_forall_free_side_sides_visit)]
fn free<'a>(matrix: &'a Matrix, search: &mut Search, table: &mut [u8], p: Position) -> Answer
    requires { MayTurn (quantifier_code free) matrix.now search.old p }
    ensures left { Leaves (suc p.at) p result search.old table.old search.new table.new }
    ensures followed { Follows p result matrix.now search.old table.old search.new table.new }
{
    sides(matrix, search, table, p, tables::FREE)
}

// What they share: the off side goes up, or it is put aside, the on side is visited, and both are finished. An off side that is a line is written
// before the on side is visited.
// stays (no plainer): the two literals copy `at`, and NodeLines `free`, of the position; the other fields are not the position's, and each has just what its callees read
#[cycle(branch_exists_forall_free_side_sides_visit)]
#[inline(always)]
fn sides<'a>(
    matrix: &'a Matrix,
    search: &mut Search,
    table: &mut [u8],
    p: Position,
    kind: u16,
) -> Answer
    requires { MayTurn kind matrix.now search.old p }
    ensures left { Leaves (suc p.at) p result search.old table.old search.new table.new }
    ensures followed { Follows p result matrix.now search.old table.old search.new table.new }
{
    let off = side(matrix, search, table, to_off(p), tables::OFF);
    let first = OffSide {
        at: p.at,
        kind,
        answer: off,
    };
    let trail = &*search.trail;
    let row = entry_of(off, &matrix.rows, &search.learned, &trail.cube);
    let aside = &mut *search.aside;
    if up_or_aside(first, row, aside) {
        return with_lines(off, off.lines); // not copied whole: see `side`
    }
    let one = lined(off.verdict, kind, p.yes);
    let mut here = NodeLines {
        at: p.at,
        free: p.free,
        count: off.lines,
    };
    let statuses = &*search.statuses;
    let lines = line_if(one, tables::OFF, table, here, statuses);
    let on = side(
        matrix,
        search,
        table,
        to_on(p, off.budget, lines),
        tables::ON,
    );
    let put = put_by(&*search.aside, first);
    let trail = &mut *search.trail;
    let (area, made) = (&trail.cube, &mut trail.resolvent);
    let both = finish(put, on, matrix, area, made, &mut search.learned);
    let two = lined(on.verdict, kind, p.yes);
    here.count = on.lines;
    let after = settle_lines(one, two, table, here, &*search.statuses);
    with_lines(both, after)
}

// The node below at the position p, where the variable of its last place is given `value`, which is taken back.
#[cycle(branch_exists_forall_free_side_sides_visit)]
fn side<'a>(
    matrix: &'a Matrix,
    search: &mut Search,
    table: &mut [u8],
    p: Position,
    value: u8,
) -> Answer
    requires { MayGoDown search.old p }
    ensures left { Leaves p.at p result search.old table.old search.new table.new }
    ensures side_visited { GoesDown value p result matrix.now search.old table.old search.new table.new }
{
    let statuses = &mut *search.statuses;
    let above = give_value(statuses, p.at, value);
    let below = visit(matrix, search, table, given(p, value), false);
    let statuses = &mut *search.statuses;
    restore(statuses, p.at, above);
    with_lines(below, below.lines) // field by field: copied whole, a struct takes its padding along, and the processor waits for that
}
