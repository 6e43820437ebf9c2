// A book written back as text from a state that lies in two lent tables, under its own limits. Paper 02, wishes 2 and 8.
ghost use Rattle.std.specs.Prelude.{length};
ghost use Rattle.book_writer.specs.Writes.{WritesAt};

use crate::clauses::Clauses;
use crate::{Written, refused, write_formula};
use refusal::Refusal;
use state::parts::Parts;

// "22 the state is malformed", also where its limits are too high; 31 exactly where the text is longer than the table. Nothing of the state is written.
// stays (no plainer): what `write_formula` answers, the two numbers of `Written`
pub fn write_at(cells: &[u16], literals: &[i16], table: &mut [u8]) -> Written
    ensures { WritesAt cells.now literals.now (length table.old) result.refusal result.length table.new }
{
    let mut places = [0u16; tables::HIGHEST_BY_NUMBER];
    let mut by_number = [0u16; tables::HIGHEST_BY_NUMBER];
    let Ok(layout) = state_parts::check(cells, literals, &mut places, &mut by_number) else {
        return refused(table, Refusal::Malformed);
    };
    let Parts {
        variables,
        clauses,
        ..
    } = layout.parts(cells, literals);
    let clauses = Clauses {
        cells: clauses.flat,
        sizes: clauses.sizes,
    };
    write_formula(variables, clauses, table)
}
