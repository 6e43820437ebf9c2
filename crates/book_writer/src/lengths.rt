// How many bytes the text has, counted as it is written.
ghost use Rattle.std.specs.Prelude.{◌≡◌, ◌∷◌, ◌+◌, ◌*◌, ◌≤◌, length};
ghost use Rattle.qbf.specs.Formula.{paper, free};
ghost use Rattle.tables.specs.Views.{rows_of};
ghost use Rattle.state.specs.Reading.{quantifier_of, prefix_of};
ghost use Rattle.layout.specs.Words.{space};
ghost use Rattle.layout.specs.Opening.{variable};
ghost use Rattle.layout.specs.Output.{decimal, literal_text, items_text};
ghost use Rattle.booktext.specs.Books.{variable_text, rest_text, rules_text, written_text};
ghost use Rattle.book_writer.specs.Tables.{formula_of, head_text, Counted, most_count, most_digits, most_heading, most_variable, most_literal, most_literals, most_rule};

use crate::clauses::Clauses;
use crate::variables::same_kind;
use literal::{Place, cell_at, number_of};
use state::kinds::kind_at;
use state::prefix::Variables;

// `)`, the end of a line, `(` and the word `flags`, or one of six letters.
const FLAGS_HEADING: usize = 8;

pub const GROUP_HEADING: usize = 9;

// A space before a number; ` (no ` and `)` around it.
pub const ON: usize = 1;

pub const OFF: usize = 6;

// `)` and the end of a line.
pub const LINE_END: usize = 2;

// `(rule` and the end of its line.
pub const RULE: usize = 7;

// `(book 1)`, the end of its line and `(flags`; then, at the end, `(end)` and the end of its line.
pub const FIRST: usize = 15;

pub const LAST: usize = 6;

pub fn digits(n: u16) -> usize
    ensures { Counted (decimal n) most_digits result }
{
    if n < 10 {
        return 1;
    }
    if n < 100 {
        return 2;
    }
    if n < 1000 {
        return 3;
    }
    if n < 10000 {
        return 4;
    }
    5
}

fn heading_length(line: u16, kind: u16) -> usize
    ensures { Counted (head_text (quantifier_of line) (quantifier_of kind)) most_heading result }
{
    if same_kind(line, kind) {
        return 0;
    }
    if kind == tables::FREE {
        FLAGS_HEADING
    } else {
        GROUP_HEADING
    }
}

fn variable_length(line: u16, kind: u16, n: u16) -> usize
    ensures { Counted (variable_text (quantifier_of line) (variable (quantifier_of kind) n)) most_variable result }
{
    heading_length(line, kind) + ON + digits(n)
}

fn variables_length(variables: Variables<'_>) -> usize
    ensures { Counted
        (rest_text free (prefix_of variables.entry.numbers.now variables.entry.levels.now variables.entry.kinds.now))
        (most_count * most_variable + 2)
        result }
{
    let Variables {
        numbers,
        levels,
        kinds,
    } = variables;
    let count = cell_at(numbers, 0) as usize;
    let mut bytes: usize = 0;
    let mut line = tables::FREE;
    // stays (no plainer): a step reads a number at a place, a level there, and a kind at that level, each 0 past its table's end: a zip of `numbers` and `levels` would
    // end with the shorter of them, and still read the kind by `cell_at`
    for i in 0..count {
        let kind = kind_at(levels, kinds, Place(i + 1));
        let n = cell_at(numbers, i + 1);
        bytes += variable_length(line, kind, n);
        line = kind;
    }
    bytes + LINE_END
}

fn literal_length(lit: i16) -> usize
    ensures { Counted (space ∷ literal_text lit) most_literal result }
{
    let n = number_of(lit).0;
    let number = digits(n as u16);
    if lit < 0 {
        return OFF + number;
    }
    ON + number
}

// stays (no plainer): `length [i16] ≤ paper.literals` is what the clause's table says of it where it is read, at one call
fn literals_length(lits: &[i16]) -> usize
    requires { length lits.now ≤ paper.literals }
    ensures { Counted (items_text lits.now) most_literals result }
{
    let mut bytes: usize = 0;
    for lit in lits {
        bytes += literal_length(*lit);
    }
    bytes
}

fn rules_length(clauses: Clauses<'_>) -> usize
    ensures { Counted
        (rules_text (rows_of paper.literals clauses.entry.cells.now clauses.entry.sizes.now))
        (most_count * most_rule)
        result }
{
    let count = clauses.count();
    let mut bytes: usize = 0;
    // stays (no plainer): `Clauses` has no iterator; one would be an `impl` with a proof of what each step gives, for this loop and that of `put_rules`, and be longer
    // than both
    for k in 0..count {
        bytes += RULE + literals_length(clauses.clause(k));
    }
    bytes
}

pub fn formula_length(variables: Variables<'_>, clauses: Clauses<'_>) -> usize
    ensures { result
        ≡ length
        (written_text
        (formula_of
        variables.entry.numbers.now
        variables.entry.levels.now
        variables.entry.kinds.now
        clauses.entry.cells.now
        clauses.entry.sizes.now)) }
{
    let lines = variables_length(variables);
    let rules = rules_length(clauses);
    FIRST + lines + rules + LAST
}
