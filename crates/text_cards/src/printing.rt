// What the program `card` prints for a text.
ghost use Rattle.std.specs.Prelude.{◌≡◌, true, ◌≤◌, length};
ghost use Rattle.std.proofs.Math.Option.{some};
ghost use Rattle.qbf.specs.Formula.{Formula, capped};
ghost use Rattle.qbf.specs.Learning.{empty_store};
ghost use Rattle.qbf.specs.Ceiling.{highest_ceiling};
ghost use Rattle.qbf.specs.Calls.{formula_is_ok, learning_card};
ghost use Rattle.qbf.specs.Runs.{fresh};
ghost use Rattle.layout.specs.Program.{table_bytes, answer_printed};
ghost use Rattle.state_parts.specs.Parts.{read_at};
ghost use Rattle.writer.specs.Wrote.{Wrote};
ghost use Rattle.answer_text.specs.Answered.{AnswerHeld};
ghost use Rattle.text_cards.specs.Printed.{WritesCard, PrintsCard};

use answer_text::book::{short, told};
use answer_text::refused::{refuse, refuse_card};
use answer_text::{ANSWER, Answer};
use book_writer::Written;
use card_answers::card::put_shown;
use card_answers::names::names_at;
use card_answers::{Filled, Sought};
use edition_opening::{Editions, open};
use replies::Listed;
use search_entry::workspace::Workspace;
use state::parts::Limits;

// The card of a state with an empty store, in a lent table.
// stays (no plainer): `length [u8] ≤ table_bytes` is of a table that is lent to be written, and a slice keeps no fact; `Filled` keeps it once it is shared
fn print_in(
    cells: &mut [u16],
    literals: &mut [i16],
    work: &mut Workspace,
    table: &mut [u8],
    out: &mut Answer<'_>,
) -> usize
    requires { length table.old ≤ table_bytes }
    ensures held { AnswerHeld out.old out.new }
    ensures printed { (b : Formula)
        → read_at cells.old literals.old ≡ some (fresh b)
        → formula_is_ok b ≡ true
        → Wrote
        out.old.bytes.now
        0
        (answer_printed b.prefix (learning_card true b empty_store highest_ceiling (length table.old)).out)
        out.new.bytes.now
        result }
{
    let sought = Sought {
        yes: true,
        ceiling: tables::HIGHEST_CEILING,
    };
    let listed = search_calls::card_of(cells, literals, work, table, sought.yes, sought.ceiling);
    let names = names_at(cells);
    let filled = Filled { sought, table };
    match listed.lines {
        Ok(lines) => put_shown(out, names, filled, lines, listed.visits),
        Err(refusal) => refuse_card(out, refusal.number()),
    }
}

// "The program's card table has 65,536 bytes"
fn print_opened(
    cells: &mut [u16],
    literals: &mut [i16],
    work: &mut Workspace,
    out: &mut Answer<'_>,
) -> usize
    ensures held { AnswerHeld out.old out.new }
    ensures printed { (b : Formula)
        → read_at cells.old literals.old ≡ some (fresh b)
        → formula_is_ok b ≡ true
        → Wrote
        out.old.bytes.now
        0
        (answer_printed b.prefix (learning_card true b empty_store highest_ceiling table_bytes).out)
        out.new.bytes.now
        result }
{
    let mut table = [tables::OPEN; reader::call::TABLE];
    print_in(cells, literals, work, &mut table, out)
}

// A text's card, or its refusal.
// stays (form): the two tables of a state are lent one by one, since no clause says what a struct of loans ends as
fn print_text(
    text: &[u8],
    limits: Limits,
    cells: &mut [u16],
    literals: &mut [i16],
    work: &mut Workspace,
    out: &mut Answer<'_>,
) -> usize
    ensures held { AnswerHeld out.old out.new }
    ensures printed { WritesCard
        (capped limits.numbers limits.clauses)
        cells.old
        literals.old
        text.now
        out.old.bytes.now
        out.new.bytes.now
        result }
{
    match open(Editions::Both, text, limits, cells, literals) {
        Ok(()) => print_opened(cells, literals, work, out),
        Err(refused) => refuse(out, refused.refusal.number(), refused.line as u64),
    }
}

// What the program `card` prints for a text, in the first bytes of the lent table.
// stays (form): the two tables of a state are lent one by one, since no clause says what a struct of loans ends as
pub fn print_card(
    text: &[u8],
    limits: Limits,
    cells: &mut [u16],
    literals: &mut [i16],
    work: &mut Workspace,
    out: &mut [u8],
) -> Written
    ensures { PrintsCard
        (capped limits.numbers limits.clauses)
        cells.old
        literals.old
        text.now
        out.old
        result
        out.new }
{
    if out.len() < ANSWER {
        return short(out);
    }
    let mut answer = Answer { bytes: out };
    let length = print_text(text, limits, cells, literals, work, &mut answer);
    told(length)
}
