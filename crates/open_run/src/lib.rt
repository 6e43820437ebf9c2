// The plain search for a reading with open flags, on the tables of a formula: the empty node is tested over those tables, and where it is open the tables of
// a search are derived, the recorded values among them. What is learned is neither read nor written: it is not lent.
#![tactic(auto)]

ghost use Rattle.std.specs.Prelude.{◌≤◌};
ghost use Rattle.qbf.specs.Formula.{highest};
ghost use Rattle.open_run.specs.OpenRun.{AtEmpty, Below};
ghost use Rattle.open_run.specs.Asked.{searched_as, walked_as};

pub mod asked; // the tables of a formula, and a reading

use asked::Asked;
use coding::quantifiers::quantifiers_of;
use dead_clauses::any_dead;
use lent_rows::LentRows;
use literal::cell_at;
use loading_clauses::{load_clauses, words_of};
use loading_start::first_row;
use node::Verdict;
use open_search::start;
use open_search::verdicts::{Finding, counted, found};
use reading::placed::by_place;
use search_entry::{Matrix, Trail};
use search_start::Start;
use search_start::satisfied::all_satisfied;

// The tests of the empty node, where every variable is open: "If a rule is dead: No. Else if every rule is satisfied: Yes."
fn at_empty(asked: Asked<'_>) -> Start
    ensures { AtEmpty asked.entry.clauses.now asked.entry.clause_sizes.now asked.entry.kinds.now result }
{
    let Asked {
        clauses,
        clause_sizes,
        kinds,
        ..
    } = asked;
    let open = [tables::OPEN; 1]; // a number past a table is open
    let rows = LentRows {
        cells: clauses,
        sizes: clause_sizes,
        width: tables::LITERALS,
    };
    if any_dead(rows, kinds, &open) {
        return Start::No;
    }
    if all_satisfied(rows, &open) {
        return Start::Yes;
    }
    Start::Open
}

// The search below the empty node, over derived tables of `count` clauses.
// stays (no plainer): `count` counts the clauses, and measures no table here
// stays (no plainer): `usize ≤ highest.clauses` is of the count of the rows that are lent, by which it is called once
fn below<'a>(
    matrix: &'a Matrix,
    count: usize,
    recorded: &'a [u8; tables::HIGHEST_BY_NUMBER],
    trail: &mut Trail,
    budget: u64,
) -> Finding
    requires { count ≤ highest.clauses }
    ensures { (result.budget ≤ budget)
        × Below matrix.now.sets count matrix.now.quantifiers recorded.now budget result }
{
    let words = words_of(count);
    first_row(&mut trail.sat, words, count);
    start(matrix, recorded, &mut trail.sat, words, budget)
}

// .. over the tables of the formula.
fn searched(asked: Asked<'_>, matrix: &mut Matrix, trail: &mut Trail, budget: u64) -> Finding
    ensures { (result.budget ≤ budget)
        × searched_as asked.entry budget result }
{
    let Asked {
        numbers,
        clauses,
        clause_sizes,
        places,
        kinds,
        values,
        free,
    } = asked;
    quantifiers_of(numbers, kinds, &mut matrix.quantifiers);
    let rows = LentRows {
        cells: clauses,
        sizes: clause_sizes,
        width: tables::LITERALS,
    };
    load_clauses(rows, places, cell_at(numbers, 0) as usize, matrix);
    let mut recorded = [tables::OPEN; tables::HIGHEST_BY_NUMBER];
    by_place(&mut recorded, values, numbers, free);
    below(
        matrix,
        cell_at(clause_sizes, 0) as usize,
        &recorded,
        trail,
        budget,
    )
}

// The whole search: the empty node's own visit is made where the budget allows it. The content of the lent tables is free.
pub fn walk(asked: Asked<'_>, matrix: &mut Matrix, trail: &mut Trail, budget: u64) -> Finding
    ensures { (result.budget ≤ budget)
        × walked_as asked.entry budget result }
{
    let spent = budget <= 1;
    if spent {
        return found(Verdict::Mixed, 0);
    }
    let empty = at_empty(asked);
    match empty {
        Start::No => found(Verdict::No, counted(budget)),
        Start::Yes => found(Verdict::Yes, counted(budget)),
        Start::Open => searched(asked, matrix, trail, budget),
    }
}
