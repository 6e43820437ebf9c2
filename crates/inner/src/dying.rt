// Step 1: "The first dead rule, in order of adding". No clause was dead above, so that one that dies at an inner node ends, under universal
// reduction, in the literal of the node's last place that is false there, and was not satisfied above: the first such clause is looked for.
ghost use Rattle.std.specs.Prelude.{◌≡◌, false, List, ℕ, suc, ◌-◌, ◌*◌, ◌≤◌, ◌<◌, length};
ghost use Rattle.std.proofs.Math.Option.{some};
ghost use Rattle.qbf.specs.Formula.{paper, highest, Prefix, Clause, Node};
ghost use Rattle.qbf.specs.Learning.{Constraint, Store, lowest_dead, reduced_found};
ghost use Rattle.tables.specs.Codes.{codes};
ghost use Rattle.inner.specs.Formed.{Formed};
ghost use Rattle.tables.specs.Matrices.{MatrixShown, left_at, dying_at};
ghost use Rattle.tables.specs.Sets.{dying_row};
ghost use Rattle.bitset.specs.Rows.{width, some_below, row};
ghost use Rattle.inner.specs.Inner.{FoundCoded, LastGiven, Entered, killing};

use crate::Given;
use crate::union::any_outside_blocks;
use bitset::rows::{WIDTH, first_outside};
use search_entry::{Bounds, Matrix, Source};

// How many codes universal reduction leaves of clause k.
fn left_at<'a>(rows: &'a [u16; tables::CLAUSE_ROWS], k: usize) -> u16
    requires { k < highest.clauses }
    ensures { result ≡ left_at rows.now k }
{
    rows[k * tables::CLAUSE_ROW]
}

// Clause k under universal reduction: its row, behind its length. Rows that are no clause's are free, and nothing is read there.
fn clause_at<'a>(rows: &'a [u16; tables::CLAUSE_ROWS], k: usize) -> Option<Bounds>
    ensures { (D : Prefix) (e : Constraint) (learned area : List ℕ)
        → k < highest.clauses
        → left_at rows.now k ≤ paper.literals
        → dying_at rows.now k ≡ codes D e
        → FoundCoded D result rows.now learned area (some e) }
{
    if k < tables::HIGHEST_CLAUSES {
        let size = left_at(rows, k) as usize;
        if size <= tables::LITERALS {
            return Some(Bounds {
                source: Source::Clauses,
                start: k * tables::CLAUSE_ROW + 1,
                len: size,
            });
        }
    }
    None
}

// The clauses that the value given last can kill.
fn dying_row<'a>(sets: &'a [u64; tables::CLAUSE_SETS], g: Given) -> &'a [u64]
    ensures { (result.now ≡ row sets.now (dying_row g.words g.code) g.words) × (length result.now ≡ g.words) }
{
    let from = g.code as usize * 2 * g.words + g.words;
    let end = from + g.words;
    &sets[from..end]
}

// The clauses that were satisfied above.
fn row_above<'a>(sat: &'a [u64; tables::SATISFIED], g: Given) -> &'a [u64]
    ensures { (result.now ≡ row sat.now ((g.at - 1) * g.words) g.words) × (length result.now ≡ g.words) }
{
    let from = (g.at - 1) * g.words;
    let end = from + g.words;
    &sat[from..end]
}

// Whether a clause dies at an inner node: one that can die by the value given last, and that was not satisfied above. Where rows are no whole blocks, which
// none of a search are, they are passed word by word, as in `dead`.
pub fn any_dies<'a>(
    sets: &'a [u64; tables::CLAUSE_SETS],
    sat: &'a [u64; tables::SATISFIED],
    g: Given,
) -> bool
    ensures { result ≡ some_below (killing sets.now sat.now g.code g.at g.words) (g.words * width) }
{
    let dying = dying_row(sets, g);
    let above = row_above(sat, g);
    let whole = dying.len() % tables::BLOCK == 0;
    if whole {
        return any_outside_blocks(dying, above);
    }
    first_outside(dying, above) < g.words * WIDTH
}

// The clause that dies at an inner node, under universal reduction. The rows are passed once, word by word: the row above was written so, just before.
pub fn dead<'a>(matrix: &'a Matrix, sat: &'a [u64; tables::SATISFIED], g: Given) -> Option<Bounds>
    ensures { (D : Prefix) (R : List Clause) (s : Node) (st : Store) (k : ℕ) (marks learned area : List ℕ)
        → LastGiven s g.at g.code
        → MatrixShown D R g.words matrix.now.rows matrix.now.sets
        → Formed D R st
        → Entered D s R g.words sat.now marks k
        → FoundCoded D result matrix.now.rows learned area (reduced_found D false (lowest_dead D s R)) }
{
    let dying = dying_row(&matrix.sets, g);
    let above = row_above(sat, g);
    let k = first_outside(dying, above);
    if g.words * WIDTH <= k {
        return None;
    }
    clause_at(&matrix.rows, k)
}
