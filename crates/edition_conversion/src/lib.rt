// A text converted from one edition into the other, on lent bytes, under limits of the caller's. Paper 02, wishes 8 and 13: "A conversion reads under limits as
// opening does". It is judged first, as a reader of its own edition judges it, onto two lent tables; then its lines are copied.
#![tactic(auto)]

ghost use Rattle.std.specs.Prelude.{length};
ghost use Rattle.qbf.specs.Formula.{capped};
ghost use Rattle.editions.specs.Converting.{fitted};
ghost use Rattle.edition_reader.specs.declared.Edition.TheVariants.{First, Second};
ghost use Rattle.edition_tags.specs.Appended.{text_to};
ghost use Rattle.edition_conversion.specs.Converted.{WrittenAs};
ghost use Rattle.edition_conversion.specs.Converting.{WrittenUnder, ConvertedUnder, TaggedUnder, UntaggedUnder};

use edition_opening::{Editions, open};
use edition_reader::Edition;
use edition_tags::text::{Text, lost_line, put_text};
use opening::NONE;
use opening::text::{NO_LINE, RefusedAt, at};
use refusal::Refusal;
use state::parts::Limits;

// No converted text is longer.
const LONGEST: usize = reader::text::TEXT;

// The length of the converted text, which stands in the first bytes of the lent table, with no refusal and no line; or the refusal with its line.
// stays (C): other languages read the number of the refusal, 0 for none, and the length beside it.
#[repr(C)]
#[derive(Clone, Copy)]
pub struct Converted {
    pub refusal: u16,
    pub line: usize,
    pub length: usize,
}

// "and last a converted text over its table or 65,536 bytes is 31 at line 0"
fn write(to: Edition, text: Text<'_>, table: &mut [u8]) -> Result<usize, RefusedAt>
    ensures { WrittenAs (fitted (length table.old) (text_to to text.entry.bytes.now)) result table.new }
{
    let count = put_text(to, text, table);
    if count > table.len() {
        return at(NO_LINE, Err(Refusal::TableTooShort));
    }
    if count > LONGEST {
        return at(NO_LINE, Err(Refusal::TableTooShort));
    }
    Ok(count)
}

// "Convert from 1 to 2 by tagging the rule forms 1, 2, 3 and so on": a text that was read is no longer than a text may be.
fn write_tagged(
    text: &[u8],
    limits: Limits,
    cells: &mut [u16],
    literals: &mut [i16],
    table: &mut [u8],
) -> Result<usize, RefusedAt>
    ensures { WrittenUnder
        Second
        (capped limits.numbers limits.clauses)
        cells.old
        literals.old
        text.now
        (length table.old)
        result
        table.new }
{
    open(Editions::First, text, limits, cells, literals)?;
    let read = Text { bytes: text };
    write(Edition::Second, read, table)
}

// "Convert from 2 to 1 only where the tags are those"; "a tag that would be lost in conversion is 40"
fn write_untagged(
    text: &[u8],
    limits: Limits,
    cells: &mut [u16],
    literals: &mut [i16],
    table: &mut [u8],
) -> Result<usize, RefusedAt>
    ensures { WrittenUnder
        First
        (capped limits.numbers limits.clauses)
        cells.old
        literals.old
        text.now
        (length table.old)
        result
        table.new }
{
    open(Editions::Second, text, limits, cells, literals)?;
    let read = Text { bytes: text };
    if let Some(line) = lost_line(read) {
        return at(line, Err(Refusal::TagLost));
    }
    write(Edition::First, read, table)
}

// The length of the converted text, which stands in the first bytes of the table. What is left in the tables of the state is the book, or malformed.
// stays (form): the two tables of a state are lent one by one, since no clause says what a struct of loans ends as
pub fn convert(
    to: Edition,
    text: &[u8],
    limits: Limits,
    cells: &mut [u16],
    literals: &mut [i16],
    table: &mut [u8],
) -> Result<usize, RefusedAt>
    ensures { WrittenUnder
        to
        (capped limits.numbers limits.clauses)
        cells.old
        literals.old
        text.now
        (length table.old)
        result
        table.new }
{
    match to {
        Edition::First => write_untagged(text, limits, cells, literals, table),
        Edition::Second => write_tagged(text, limits, cells, literals, table),
    }
}

// "zeroes the rest of its table, all of it when refused"
// stays (form): the two tables of a state are lent one by one, since no clause says what a struct of loans ends as
fn answer(
    to: Edition,
    text: &[u8],
    limits: Limits,
    cells: &mut [u16],
    literals: &mut [i16],
    table: &mut [u8],
) -> Converted
    ensures { ConvertedUnder
        to
        (capped limits.numbers limits.clauses)
        cells.old
        literals.old
        text.now
        (length table.old)
        result
        table.new }
{
    match convert(to, text, limits, cells, literals, table) {
        Ok(length) => {
            cover::clear(&mut table[length..]);
            Converted {
                refusal: NONE,
                line: NO_LINE,
                length,
            }
        }
        Err(refused) => {
            cover::clear(table);
            Converted {
                refusal: refused.refusal.number(),
                line: refused.line,
                length: 0,
            }
        }
    }
}

// stays (no plainer): this and `untag` are two public names of one call, each with its own clause, `to_tagged` and `to_untagged`.
pub fn tag(
    text: &[u8],
    limits: Limits,
    cells: &mut [u16],
    literals: &mut [i16],
    table: &mut [u8],
) -> Converted
    ensures { TaggedUnder
        (capped limits.numbers limits.clauses)
        cells.old
        literals.old
        text.now
        (length table.old)
        result
        table.new }
{
    answer(Edition::Second, text, limits, cells, literals, table)
}

pub fn untag(
    text: &[u8],
    limits: Limits,
    cells: &mut [u16],
    literals: &mut [i16],
    table: &mut [u8],
) -> Converted
    ensures { UntaggedUnder
        (capped limits.numbers limits.clauses)
        cells.old
        literals.old
        text.now
        (length table.old)
        result
        table.new }
{
    answer(Edition::First, text, limits, cells, literals, table)
}
