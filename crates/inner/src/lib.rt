// Steps 1 to 4 of a visit at an inner node: only what the last step changed is looked at. A clause that dies there, a learned clause or a
// cube that decides it ends in the literal of the node's last place; the clauses satisfied are the parent's and those of the value given last.
#![tactic(auto)]

pub mod found; // steps 2 and 4: the oldest constraint on a shelf that ends in the last place's literal
pub mod dying; // step 1: the first clause that dies
pub mod step_down; // step 3: the clauses that are satisfied, and the mark of a place whose value satisfied one more
pub mod union; // .. united with those of the parent, where rows are whole blocks
pub mod cube; // the cube of the true literals of the marked places

ghost use Rattle.std.specs.Prelude.{◌≡◌, true, false, List, map, ℕ, suc, ◌≤◌, ◌<◌, length, eqb};
ghost use Rattle.qbf.specs.Formula.{paper, Prefix, Clause, Node, all, satisfied};
ghost use Rattle.qbf.specs.Learning.{Constraint, Store, lowest_dead, reduced_found, eligible_match};
ghost use Rattle.inner.specs.Formed.{Formed};
ghost use Rattle.tables.specs.Codes.{codes, Statuses, Quantified};
ghost use Rattle.tables.specs.Matrices.{MatrixShown};
ghost use Rattle.tables.specs.Sets.{ClauseSets, Descended, RowsKept};
ghost use Rattle.shelf.specs.Standing.{rows};
ghost use Rattle.inner.specs.Steps.{first_of, matched, satisfied_or};
ghost use Rattle.inner.specs.Inner.{FoundCoded, LeafCoded, Inside, LastGiven, Worded, Entered, NodeShown, Concluded};

use cube::cube;
use dying::dead;
use found::{lookup, true_at};
use node::Depth;
use search_entry::{Bounds, Learned, Matrix, Source, Trail};
use shelf::Shelf;
use step_down::step_down;

// What decides the node, with the constraint that goes up by its bounds, or that it is open.
// stays (no plainer): No, Yes and open are the paper's three outcomes of these steps; as an Option of the first two each would be an enum in an Option, `Some(Leaf::No(b))` for `Leaf::No(b)`
#[derive(Clone, Copy)]
pub enum Leaf {
    No(Bounds),
    Yes(Bounds),
    Open,
}

// The value given last: its place, the code of the literal that it makes true, and the words of a row of clauses.
#[derive(Clone, Copy)]
pub struct Given {
    pub at: usize,
    pub code: u16,
    pub words: usize,
    pub ghost inside: { Inside at code words },
}

// Steps 1 and 2: the clause that dies at the node, or the learned clause that is false there.
// stays (no plainer): the word of the literals that are false, as in `conclude`
fn conflict<'a>(
    matrix: &'a Matrix,
    sat: &'a [u64; tables::SATISFIED],
    learned: &'a Shelf,
    statuses: &'a [u8; tables::CODES],
    g: Given,
    failed: u64,
) -> Option<Bounds>
    ensures { (D : Prefix) (R : List Clause) (s : Node) (st : Store) (k : ℕ) (marks area : List ℕ)
        → Statuses s statuses.now
        → LastGiven s g.at g.code
        → Worded s false failed
        → MatrixShown D R g.words matrix.now.rows matrix.now.sets
        → Formed D R st
        → Entered D s R g.words sat.now marks k
        → rows learned.now ≡ map (codes D) st.clauses
        → FoundCoded
        D
        result
        matrix.now.rows
        learned.now.cells.now
        area
        (first_of (reduced_found D false (lowest_dead D s R)) (eligible_match D eqb false s st.clauses)) }
{
    // stays (proof): with `dead(..).or_else(|| lookup(..))` the goal `returns` stays open where no clause dies: no field of what the closure gives has `FoundCoded`; with clauses of its
    // own the closure would say `lookup`'s contract a second time
    match dead(matrix, sat, g) {
        Some(b) => Some(b),
        None => lookup(learned, statuses, g.code, false, failed),
    }
}

// Step 4: the oldest eligible cube that is true.
fn stored_cube<'a>(statuses: &'a [u8; tables::CODES], cubes: &'a Shelf, g: Given, held: u64) -> Leaf
    ensures { (D : Prefix) (s : Node) (qs : List Constraint) (clauses learned area : List ℕ)
        → Statuses s statuses.now
        → LastGiven s g.at g.code
        → Worded s true held
        → rows cubes.now ≡ map (codes D) qs
        → LeafCoded D result clauses learned cubes.now.cells.now area (matched D eqb s qs) }
{
    match lookup(cubes, statuses, g.code, true, held) {
        Some(b) => Leaf::Yes(b),
        None => Leaf::Open,
    }
}

// Steps 3 and 4: the cube of a node that satisfies all clauses, or a cube that is true there.
// stays (no plainer): the word of the literals that are true, as in `conclude`
fn solution<'a>(
    matrix: &'a Matrix,
    cubes: &'a Shelf,
    statuses: &'a [u8; tables::CODES],
    trail: &mut Trail,
    g: Given,
    held: u64,
) -> Leaf
    ensures rows_kept { RowsKept g.at g.words trail.old.sat trail.new.sat trail.old.marks trail.new.marks }
    ensures leaf_coded { (D : Prefix) (R : List Clause) (s : Node) (st : Store) (k : ℕ) (clauses learned : List ℕ)
        → Quantified D matrix.now.quantifiers
        → Statuses s statuses.now
        → Formed D R st
        → LastGiven s g.at g.code
        → Worded s true held
        → rows cubes.now ≡ map (codes D) st.cubes
        → ClauseSets D R g.words matrix.now.sets
        → Entered D s R g.words trail.old.sat trail.old.marks k
        → Descended D s R g.words trail.new.sat trail.new.marks g.at
        × LeafCoded D result clauses learned cubes.now.cells.now trail.new.cube (satisfied_or D R s (matched D eqb s st.cubes)) }
{
    if step_down(&matrix.sets, trail, g) {
        let n = cube(
            &trail.marks,
            statuses,
            &matrix.quantifiers,
            g.at,
            &mut trail.cube,
        );
        return Leaf::Yes(Bounds {
            source: Source::Area,
            start: 0,
            len: n,
        });
    }
    stored_cube(statuses, cubes, g, held)
}

// The four steps in order, at a node that is not the start.
// stays (no plainer): the two words are the position's, and one goes to either lookup: `Depth` and `Given` have what the start node's rows are read by too, where there is no word
pub fn conclude<'a>(
    matrix: &'a Matrix,
    learned: &'a Learned,
    statuses: &'a [u8; tables::CODES],
    trail: &mut Trail,
    here: Depth,
    held: u64,
    failed: u64,
) -> Leaf
    requires { 1 ≤ here.at }
    ensures rows_kept { RowsKept here.at here.words trail.old.sat trail.new.sat trail.old.marks trail.new.marks }
    ensures concluded { (D : Prefix) (R : List Clause) (s : Node) (st : Store) (k : ℕ)
        → NodeShown
        D
        R
        s
        st
        here.at
        here.words
        held
        failed
        matrix.now.rows
        matrix.now.sets
        matrix.now.quantifiers
        statuses.now
        learned.now.clauses.cells.now
        learned.now.clauses.links.now
        learned.now.cubes.cells.now
        learned.now.cubes.links.now
        → Entered D s R here.words trail.old.sat trail.old.marks k
        → Concluded
        D
        R
        s
        st
        result
        here.words
        matrix.now.rows
        learned.now.clauses.cells.now
        learned.now.cubes.cells.now
        trail.new.cube
        trail.new.sat
        trail.new.marks }
{
    let g = Given {
        at: here.at,
        code: true_at(statuses, here.at),
        words: here.words,
    };
    match conflict(matrix, &trail.sat, &learned.clauses, statuses, g, failed) {
        Some(b) => Leaf::No(b),
        None => solution(matrix, &learned.cubes, statuses, trail, g, held),
    }
}
