// A book written back as text, from the tables of a state into a lent byte table. Paper 02, wish 2. The bytes are counted first, so that a
// table that is too short is refused before anything is written.
#![tactic(auto)]

ghost use Rattle.std.specs.Prelude.{◌≡◌, ◌≤◌, length};
ghost use Rattle.qbf.specs.Card.{zero_table};
ghost use Rattle.refusal.specs.Refusal.{number_of};
ghost use Rattle.writer.specs.Wrote.{Wrote};
ghost use Rattle.booktext.specs.Books.{written_to, write_refused, written_text};
ghost use Rattle.book_writer.specs.Tables.{formula_of};
ghost use Rattle.book_writer.specs.Made.{WrittenAs};
ghost use Rattle.book_writer.specs.Writes.{answered, told};

pub mod at; // a state in two lent tables
pub mod clauses; // the clauses of a formula, in a table that is lent
mod lengths; // how many bytes a text has
pub mod longest; // how many it may have
mod rules; // the lines of the rules
mod variables; // the lines of the variables

use clauses::Clauses;
use refusal::Refusal;
use state::prefix::Variables;
use writer::Output;

// The number of the refusal, 0 where there is none, and the length of the text, which stands in the first bytes of the lent table.
// stays (C): other languages read the number of the refusal, 0 for none, and the length beside it.
#[repr(C)]
#[derive(Clone, Copy)]
pub struct Written {
    pub refusal: u16,
    pub length: usize,
}

// Nothing is refused.
// stays (C): the number that stands in `Written`, as other languages read it.
pub const NONE: u16 = 0;

impl From<Result<usize, Refusal>> for Written {
    ghost from_gives = { WrittenAs };

    fn from(written: Result<usize, Refusal>) -> Written {
        match written {
            Ok(length) => Written {
                refusal: NONE,
                length,
            },
            Err(refusal) => Written {
                refusal: refusal.number(),
                length: 0,
            },
        }
    }
}

// "and zeroed"
// stays (no plainer): what `write_formula` and `at::write_at` answer, the two numbers of `Written`
fn refused(table: &mut [u8], refusal: Refusal) -> Written
    ensures { answered result.refusal result.length table.new
        ≡ told (write_refused (number_of refusal) (zero_table (length table.old))) }
{
    cover::clear(table);
    Written::from(Err(refusal))
}

// The text, line after line, at the start of the table.
#[tactic(auto, using(booktext_laws::proofs::Room::parts_length))]
fn put_formula(table: &mut [u8], variables: Variables<'_>, clauses: Clauses<'_>) -> usize
    requires { length
        (written_text
        (formula_of variables.numbers.now variables.levels.now variables.kinds.now clauses.cells.now clauses.sizes.now))
        ≤ length table.old }
    ensures { Wrote
        table.old
        0
        (written_text
        (formula_of
        variables.entry.numbers.now
        variables.entry.levels.now
        variables.entry.kinds.now
        clauses.entry.cells.now
        clauses.entry.sizes.now))
        table.new
        result }
{
    let mut out = Output {
        bytes: table,
        at: 0,
    };
    out.put_word(b"(book 1)\n(flags");
    variables::put_variables(&mut out, variables);
    rules::put_rules(&mut out, clauses);
    out.put_word(b"(end)\n");
    out.at
}

// The formula of the tables, whatever its limits are.
// stays (C): these are the two numbers that exports answer, and `WritesAt` is their clause of them; over a `Result` the same promise would be defined twice, with a step
// from the one to the other for the exports
pub fn write_formula(variables: Variables<'_>, clauses: Clauses<'_>, table: &mut [u8]) -> Written
    ensures { answered result.refusal result.length table.new
        ≡ told
        (written_to
        (length table.old)
        (written_text
        (formula_of
        variables.entry.numbers.now
        variables.entry.levels.now
        variables.entry.kinds.now
        clauses.entry.cells.now
        clauses.entry.sizes.now))) }
{
    let n = lengths::formula_length(variables, clauses);
    if n > table.len() {
        return refused(table, Refusal::TableTooShort);
    }
    let end = put_formula(table, variables, clauses);
    cover::clear(&mut table[end..]);
    Written::from(Ok(end))
}
