// What the program `qdimacs` prints under limits of the caller's: the book of a QDIMACS text in our own text, or the refusal. Paper 02, wishes 1, 2 and 8.
#![tactic(auto)]

ghost use Rattle.std.specs.Prelude.{◌≡◌, true};
ghost use Rattle.std.proofs.Math.Option.{some};
ghost use Rattle.qbf.specs.Formula.{capped, Formula};
ghost use Rattle.qbf.specs.Calls.{formula_is_ok};
ghost use Rattle.qbf.specs.Runs.{fresh};
ghost use Rattle.booktext.specs.Books.{book_text};
ghost use Rattle.state_parts.specs.Parts.{read_at};
ghost use Rattle.qdimacs_printer.specs.Printing.{Printed, BookPrinted};

use answer_text::refused::write_refusal;
use book_writer::at::write_at;
use book_writer::longest::HIGHEST_LONGEST;
use qdimacs_opening::open;
use state::parts::Limits;

// A table that holds the text of every book, under any limits.
pub const ROOM: usize = HIGHEST_LONGEST;

// The book of a state with an empty store.
fn put_book(cells: &[u16], literals: &[i16], out: &mut [u8; ROOM]) -> usize
    ensures { (b : Formula) → read_at cells.now literals.now ≡ some (fresh b) → formula_is_ok b ≡ true → Printed (book_text b) result out.new }
{
    let written = write_at(cells, literals, out);
    written.length
}

// The first bytes of the table are what the program prints for the text.
pub fn print_book(
    text: &[u8],
    limits: Limits,
    cells: &mut [u16],
    literals: &mut [i16],
    out: &mut [u8; ROOM],
) -> usize
    ensures { BookPrinted
        (capped limits.numbers limits.clauses)
        cells.old
        literals.old
        text.now
        result
        out.new }
{
    match open(text, limits, cells, literals) {
        Ok(()) => put_book(cells, literals, out),
        Err(refused) => write_refusal(out, refused.refusal.number(), refused.line as u64),
    }
}
