// The line that asks for the text of a book, whose state lies in two lent tables: the text stands in the first bytes of the answer's table, or it is refused.
#![tactic(auto)]

ghost use Rattle.std.proofs.Math.Option.{none, some};
ghost use Rattle.answer_text.specs.Answered.{AnswerHeld};
ghost use Rattle.text_answers.specs.Text.{TextAnswered};

use answer_text::Answer;
use answer_text::refused::refuse;
use book_writer::NONE;
use book_writer::at::write_at;
use book_writer::longest::longest_at;

// `(write 4)`: the first bytes of the table, as many as the line asks for. A line may ask for more than there are, which hold every text.
// stays (no plainer): `write_at` answers the two numbers of `Written`
pub fn put_text(
    out: &mut Answer<'_>,
    cells: &[u16],
    literals: &[i16],
    size: usize,
    line: u64,
) -> usize
    ensures held { AnswerHeld out.old out.new }
    ensures text { TextAnswered cells.now literals.now (some size) line result out.new.bytes.now }
{
    let bytes = &mut *out.bytes;
    let room = size.min(bytes.len());
    let written = write_at(cells, literals, &mut bytes[..room]);
    if written.refusal != NONE {
        return refuse(out, written.refusal, line);
    }
    written.length
}

// `(write)`: "the table is as large as the longest text of the session's limits needs".
pub fn put_whole(out: &mut Answer<'_>, cells: &[u16], literals: &[i16], line: u64) -> usize
    ensures held { AnswerHeld out.old out.new }
    ensures text { TextAnswered cells.now literals.now none line result out.new.bytes.now }
{
    put_text(out, cells, literals, longest_at(cells), line)
}
