// The clauses of a search: of each a row with its length under universal reduction and its codes, and by code the sets of clauses.
#![tactic(auto)]

ghost use Rattle.std.specs.Prelude.{◌≡◌, [], ◌+◌, ◌*◌, ◌≤◌, ◌<◌, length, get_or, take};
ghost use Rattle.qbf.specs.Formula.{paper, highest, Prefix};
ghost use Rattle.tables.specs.Views.{Places, rows_of};
ghost use Rattle.tables.specs.Codes.{Quantified};
ghost use Rattle.tables.specs.Sets.{ClauseSets};
ghost use Rattle.tables.specs.Matrices.{clause_row, words_of, MatrixShown};
ghost use Rattle.lent_rows.specs.Held.{Held};
ghost use Rattle.loading_clauses.specs.Coded.{Low, Coded, SetsFor, Satisfying, Added, Filled};

use bitset::rows::{clear, insert};
use coding::code::{encode, opposite};
use coding::list::{last_code, reduced_len};
use lent_rows::LentRows;
use search_entry::Matrix;

// The words of a row of so many clauses.
pub fn words_of(count: usize) -> usize
    ensures { result ≡ words_of count }
{
    (count / (bitset::rows::WIDTH * tables::BLOCK) + 1) * tables::BLOCK
}

// A clause's row, from a cell on; the cells before it stay.
// stays (no plainer): `length [i16] ≤ paper.literals` is of a row as it is read off its table, at one call: a slice, which keeps no fact
fn code_row<'a>(
    rows: &mut [u16],
    at: usize,
    lits: &'a [i16],
    places: &'a [u16],
    quantifiers: &'a [u8; tables::CODES],
)
    requires { (at + 1 + length lits.now ≤ length rows.old) × (length lits.now ≤ paper.literals) }
    ensures { (length rows.new ≡ length rows.old)
        × (take at rows.new ≡ take at rows.old)
        × Coded lits.now places.now quantifiers.now at rows.new }
{
    let len = lits.len();
    encode(&mut rows[at + 1..], lits, places);
    let end = at + 1 + len;
    let left = reduced_len(&rows[at + 1..end], quantifiers, false);
    rows[at] = left as u16;
}

// Clause k goes into the row of each of its codes.
// stays (no plainer): `SetsFor words k sets` says that each row of the sets has room for the bit of clause k; k is another at each call, so a type would be made anew for each clause
fn add_satisfying<'a>(sets: &mut [u64], words: usize, row: &'a [u16], k: usize)
    requires { SetsFor words k sets.old × Low row.now }
    ensures { Satisfying words row.now k sets.old sets.new }
{
    for code in row {
        insert(sets, *code as usize * 2 * words, k);
    }
}

// .. and into the row of the code that makes the last one left false. Where none is left that is a row of no variable's.
fn add_clause<'a>(sets: &mut [u64], words: usize, row: &'a [u16], left: usize, k: usize)
    requires { SetsFor words k sets.old × Low row.now × (left ≤ length row.now) }
    ensures { Added words row.now (take left row.now) k sets.old sets.new }
{
    add_satisfying(sets, words, row, k);
    let other = opposite(last_code(&row[..left]));
    let code = other as usize;
    insert(sets, code * 2 * words + words, k);
}

// Clause k: its row, and its number in the sets.
fn load_clause<'a>(lits: &'a [i16], places: &'a [u16], matrix: &mut Matrix, words: usize, k: usize)
    requires { (length lits.now ≤ paper.literals)
        × (k < highest.clauses)
        × (length matrix.old.rows ≡ highest.clauses * clause_row)
        × SetsFor words k matrix.old.sets }
    ensures { (matrix.new.quantifiers ≡ matrix.old.quantifiers)
        × Filled
        lits.now
        places.now
        matrix.old.quantifiers
        words
        k
        matrix.old.rows
        matrix.old.sets
        matrix.new.rows
        matrix.new.sets }
{
    let at = k * tables::CLAUSE_ROW;
    code_row(&mut matrix.rows, at, lits, places, &matrix.quantifiers);
    let left = matrix.rows[at] as usize;
    let rows: &[u16] = &matrix.rows;
    let codes = &rows[at + 1..at + 1 + lits.len()];
    add_clause(&mut matrix.sets, words, codes, left, k);
}

// The clauses one after the other.
fn add_clauses<'a>(clauses: LentRows<'a>, places: &'a [u16], matrix: &mut Matrix, words: usize)
    requires { Held clauses.width highest.clauses clauses.cells.now clauses.sizes.now
        × (clauses.width ≤ paper.literals)
        × (length matrix.old.rows ≡ highest.clauses * clause_row)
        × SetsFor words (get_or clauses.sizes.now 0 0) matrix.old.sets }
    ensures { (matrix.new.quantifiers ≡ matrix.old.quantifiers)
        × ((D : Prefix)
        → Places D places.now
        → Quantified D matrix.old.quantifiers
        → length D ≤ highest.numbers
        → ClauseSets D [] words matrix.old.sets
        → MatrixShown
        D
        (rows_of clauses.entry.width clauses.entry.cells.now clauses.entry.sizes.now)
        words
        matrix.new.rows
        matrix.new.sets) }
{
    let count = clauses.count();
    // stays (no plainer): k is the clause's number too; and `row(k)` says how long the row is, which what `rows()` yields does not
    for k in 0..count {
        load_clause(clauses.row(k), places, matrix, words, k);
    }
}

// The rows and the sets of the clauses, under places up to `last`, where the quantifiers are there. Their content before is free: of the sets the rows of
// the places' codes are cleared first.
// stays (no plainer): `usize ≤ highest.numbers` is of one number that says how far a table is read; a type for it would be taken off at that table
pub fn load_clauses<'a>(clauses: LentRows<'a>, places: &'a [u16], last: usize, matrix: &mut Matrix)
    requires { Held clauses.width highest.clauses clauses.cells.now clauses.sizes.now
        × (clauses.width ≤ paper.literals)
        × (last ≤ highest.numbers) }
    ensures { (matrix.new.quantifiers ≡ matrix.old.quantifiers)
        × ((D : Prefix)
        → Places D places.now
        → Quantified D matrix.old.quantifiers
        → length D ≤ last
        → MatrixShown
        D
        (rows_of clauses.entry.width clauses.entry.cells.now clauses.entry.sizes.now)
        (words_of (get_or clauses.entry.sizes.now 0 0))
        matrix.new.rows
        matrix.new.sets) }
{
    let words = words_of(clauses.count());
    let used = (last + 1) * 2 * 2 * words;
    clear(&mut matrix.sets[..used]);
    add_clauses(clauses, places, matrix, words);
}
