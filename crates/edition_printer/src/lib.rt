// What the programs `tag` and `untag` print under limits of the caller's: the book of a text in the other edition, or the refusal. Paper 02, wishes 8 and 13.
#![tactic(auto)]

ghost use Rattle.qbf.specs.Formula.{capped};
ghost use Rattle.edition_printer.specs.Printing.{ConversionWritten, TaggedWritten, UntaggedWritten};

use answer_text::refused::write_refusal;
use edition_conversion::convert;
use edition_reader::Edition;
use state::parts::Limits;

// "over its table or 65,536 bytes": no converted text is longer.
pub const ROOM: usize = reader::text::TEXT;

// The text that the conversion has put there, or its refusal.
// stays (form): the two tables of a state are lent one by one, since no clause says what a struct of loans ends as
fn print(
    to: Edition,
    text: &[u8],
    limits: Limits,
    cells: &mut [u16],
    literals: &mut [i16],
    out: &mut [u8; ROOM],
) -> usize
    ensures { ConversionWritten
        to
        (capped limits.numbers limits.clauses)
        cells.old
        literals.old
        text.now
        out.old
        out.new
        result }
{
    match convert(to, text, limits, cells, literals, out) {
        Ok(length) => length,
        Err(refused) => write_refusal(out, refused.refusal.number(), refused.line as u64),
    }
}

// The first bytes of the table are what the program `tag` prints for the text.
// stays (no plainer): this and `print_untagged` are two public names of one call, each with its own clause, `tag_program` and `untag_program`.
pub fn print_tagged(
    text: &[u8],
    limits: Limits,
    cells: &mut [u16],
    literals: &mut [i16],
    out: &mut [u8; ROOM],
) -> usize
    ensures { TaggedWritten
        (capped limits.numbers limits.clauses)
        cells.old
        literals.old
        text.now
        out.old
        out.new
        result }
{
    print(Edition::Second, text, limits, cells, literals, out)
}

// The same of the program `untag`.
pub fn print_untagged(
    text: &[u8],
    limits: Limits,
    cells: &mut [u16],
    literals: &mut [i16],
    out: &mut [u8; ROOM],
) -> usize
    ensures { UntaggedWritten
        (capped limits.numbers limits.clauses)
        cells.old
        literals.old
        text.now
        out.old
        out.new
        result }
{
    print(Edition::First, text, limits, cells, literals, out)
}
