// The search: the start node by its steps 1 to 4 over the tables themselves, and below it over the tables that are derived from them.
ghost use Rattle.std.specs.Prelude.{◌≡◌, ◌^◌, ◌≤◌, ◌<◌, length, get_or};
ghost use Rattle.qbf.specs.Formula.{paper, highest};
ghost use Rattle.shelf.specs.Standing.{newest};
ghost use Rattle.search_entry.specs.Within.{nowhere};
ghost use Rattle.searching.specs.Run.{ended_at, Below, OpenedAs, Ran};

use crate::given::Given;
use crate::task::Task;
use crate::words::words_at;
use coding::quantifiers::quantifiers_of;
use coding::statuses::statuses_of;
use literal::{ByNumber, cell_at};
use loading_clauses::{load_clauses, words_of};
use loading_constraints::load;
use loading_start::start_rows;
use node::{Answer, Depth, Position, Verdict};
use search_entry::workspace::Workspace;
use search_entry::{ASIDE, Learned, Matrix, Search, Source, Trail};
use search_start::{Start, conclude};
use shelf::Shelf;

// What a search derives from a state and what it changes, lent with free content.
#[derive(Drop)]
pub struct Scratch<'a> {
    pub matrix: &'a mut Matrix,
    pub clause_cells: &'a mut [u16; tables::CONSTRAINT_CODES],
    pub clause_links: &'a mut [u64; tables::CONSTRAINT_LINKS],
    pub clause_masks: &'a mut [u64; tables::CONSTRAINTS],
    pub cube_cells: &'a mut [u16; tables::CONSTRAINT_CODES],
    pub cube_links: &'a mut [u64; tables::CONSTRAINT_LINKS],
    pub cube_masks: &'a mut [u64; tables::CONSTRAINTS],
    pub trail: &'a mut Trail,
    pub statuses: &'a mut [u8; tables::CODES],
    pub aside: &'a mut [u16; ASIDE],
}

impl<'a> Scratch<'a> {
    pub fn of(work: &'a mut Workspace) -> Scratch<'a> {
        Scratch {
            matrix: &mut work.matrix,
            clause_cells: &mut work.clause_cells,
            clause_links: &mut work.clause_links,
            clause_masks: &mut work.clause_masks,
            cube_cells: &mut work.cube_cells,
            cube_links: &mut work.cube_links,
            cube_masks: &mut work.cube_masks,
            trail: &mut work.trail,
            statuses: &mut work.statuses,
            aside: &mut work.aside,
        }
    }
}

// The answer of a search; and, where it went below the start node, all that is learned.
#[derive(Drop)]
pub struct Found<'a> {
    pub answer: Answer,
    pub learned: Option<Learned<'a>>,
}

// A start node that does not branch: no line is below it, and that budget is left.
fn ended(verdict: Verdict, budget: u64) -> Answer
    ensures { result ≡ record { verdict = verdict; source = Source.Area; start = 0; len = 0; budget = budget; lines = 0; inside = nowhere } }
{
    Answer {
        verdict: verdict,
        source: Source::Area,
        start: 0,
        len: 0,
        budget: budget,
        lines: 0,
    }
}

// .. where nothing is learned.
fn decided<'a>(verdict: Verdict, budget: u64) -> Found<'a>
    ensures { result ≡ ended_at verdict budget }
{
    let answer = ended(verdict, budget);
    Found {
        answer,
        learned: None,
    }
}

// The search below an open start node, with what it knows of the clauses there.
fn below(
    matrix: &Matrix,
    given: Given<'_>,
    task: Task<'_>,
    search: &mut Search<'_>,
    table: &mut [u8],
) -> Answer
    requires { (task.at ≤ get_or given.numbers.now 0 0)
        × (newest search.old.learned.clauses ≤ paper.constraints)
        × (newest search.old.learned.cubes ≤ paper.constraints)
        × (2 ≤ task.budget) }
    ensures table_len_unchanged { (length table.new ≡ length table.old)
        × (result.lines < 2 ^ 63)
        × (result.budget ≤ task.entry.budget) }
    ensures below { Below
        task.entry.yes
        matrix.now.rows
        matrix.now.sets
        (get_or given.entry.clauses.sizes.now 0 0)
        given.entry.numbers.now
        matrix.now.quantifiers
        task.entry.values.now
        search.old.learned.clauses.cells.now
        search.old.learned.clauses.links.now
        search.old.learned.cubes.cells.now
        search.old.learned.cubes.links.now
        table.old
        task.entry.at
        task.entry.free
        task.entry.budget
        result
        search.new.learned.clauses.cells.now
        search.new.learned.clauses.links.now
        search.new.learned.cubes.cells.now
        search.new.learned.cubes.links.now
        table.new }
{
    let Task {
        values,
        at,
        free,
        yes,
        budget,
        ..
    } = task;
    let count = given.clauses.count();
    statuses_of(given.numbers, values, at, search.statuses);
    let words = words_of(count);
    start_rows(
        &matrix.sets,
        search.statuses,
        count,
        Depth { at, words },
        search.trail,
    );
    let (held, failed) = words_at(search.statuses, at);
    let start = Position {
        at,
        free,
        budget,
        lines: 0,
        words,
        yes,
        held,
        failed,
    };
    search::start(matrix, search, table, start)
}

// .. over the tables that are lent: those of the clauses are derived here, and the learned constraints put onto empty shelves.
// stays (no plainer): of the lent tables these three go on to the search as they are, and the other seven become the matrix and the shelves
// stays (no plainer): `Task.at ≤ get_or Given.numbers 0 0` is of the two together: a struct that kept it would hold both for three functions, and name each of their fields through itself
fn opened<'a>(given: Given<'_>, task: Task<'_>, scratch: Scratch<'a>, table: &mut [u8]) -> Found<'a>
    requires { (task.at ≤ get_or given.numbers.now 0 0) × (2 ≤ task.budget) }
    ensures table_len_unchanged { (length table.new ≡ length table.old)
        × (result.answer.lines < 2 ^ 63)
        × (result.answer.budget ≤ task.entry.budget) }
    ensures opened { OpenedAs given.entry task.entry table.old result table.new }
{
    let numbers = given.numbers;
    let matrix = scratch.matrix;
    quantifiers_of(numbers, task.kinds, &mut matrix.quantifiers);
    load_clauses(
        given.clauses,
        task.places,
        cell_at(numbers, 0) as usize,
        matrix,
    );
    let mut clauses = Shelf::empty(
        scratch.clause_cells,
        scratch.clause_links,
        scratch.clause_masks,
    );
    let mut cubes = Shelf::empty(scratch.cube_cells, scratch.cube_links, scratch.cube_masks);
    load(given.learned_clauses, task.places, &mut clauses);
    load(given.learned_cubes, task.places, &mut cubes);
    let mut search = Search {
        learned: Learned { clauses, cubes },
        trail: scratch.trail,
        statuses: scratch.statuses,
        aside: scratch.aside,
    };
    let answer = below(matrix, given, task, &mut search, table);
    Found {
        answer,
        learned: Some(search.learned),
    }
}

// The whole search: the start node's own visit is made where the budget allows it.
// stays (no plainer): the finders at the start node read three of the task's tables; a task that held them as one would be taken apart for the budget and the lines
pub fn run<'a>(
    given: Given<'_>,
    task: Task<'_>,
    scratch: Scratch<'a>,
    table: &mut [u8],
) -> Found<'a>
    requires { task.at ≤ get_or given.numbers.now 0 0 }
    ensures table_len_unchanged { (length table.new ≡ length table.old)
        × (result.answer.lines < 2 ^ 63)
        × (result.answer.budget ≤ task.entry.budget) }
    ensures ran { Ran given.entry task.entry table.old result table.new }
{
    let spent = task.budget <= 1;
    if spent {
        return decided(Verdict::Mixed, 0);
    }
    let left = task.budget - 1;
    let shown = ByNumber {
        places: task.places,
        kinds: task.kinds,
        values: task.values,
    };
    let start = conclude(
        given.clauses,
        given.learned_clauses,
        given.learned_cubes,
        shown,
        task.at,
    );
    match start {
        Start::No => decided(Verdict::No, left),
        Start::Yes => decided(Verdict::Yes, left),
        Start::Open => opened(given, task, scratch, table),
    }
}
