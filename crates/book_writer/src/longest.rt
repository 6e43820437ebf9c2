// How long a text may be: `(write)` without a size takes a table that holds every text under the limits of the state. Paper 02, wishes 2 and 8.
ghost use Rattle.std.specs.Prelude.{◌≡◌, ◌≤◌, get_or};
ghost use Rattle.qbf.specs.Formula.{highest, capped};
ghost use Rattle.booktext.specs.Books.{text_room};

use crate::lengths::{FIRST, GROUP_HEADING, LAST, LINE_END, OFF, ON, RULE, digits};
use state::parts::Limits;
use state_parts::layout::{clauses_limit, numbers_limit};

// Under the highest limits: a number has at most four digits, and every variable may stand on a line of its own.
pub const HIGHEST_LONGEST: usize = 23
    + tables::HIGHEST_NUMBERS * 14
    + tables::HIGHEST_CLAUSES * (7 + tables::LITERALS * 10);

// A table of so many bytes holds every text under these limits, "capped at" the highest: writing into it is never 31.
pub fn longest(limits: Limits) -> usize
    ensures is { result ≡ text_room (capped limits.numbers limits.clauses) }
    ensures few { result ≤ text_room highest }
{
    let numbers = limits.numbers.min(tables::HIGHEST_NUMBERS);
    let clauses = limits.clauses.min(tables::HIGHEST_CLAUSES);
    let number = digits(numbers as u16);
    let variables = numbers * (GROUP_HEADING + ON + number);
    let rules = clauses * (RULE + tables::LITERALS * (OFF + number));
    FIRST + LINE_END + variables + rules + LAST
}

// .. under the limits that stand in the first two cells of a state.
pub fn longest_at(cells: &[u16]) -> usize
    ensures is { result ≡ text_room (capped (get_or cells.now 0 0) (get_or cells.now 1 0)) }
    ensures few { result ≤ text_room highest }
{
    longest(Limits {
        numbers: numbers_limit(cells),
        clauses: clauses_limit(cells),
    })
}
