// The place of the answer that follows, and a book that was opened.
ghost use Rattle.day_text.specs.Output.{at_text, opened_text};
ghost use Rattle.writer.specs.Appended.{Appended, Room};

use writer::Output;

#[tactic(auto, using(crate::proofs::Lengths::at_length))]
pub fn put_at(out: &mut Output<'_>, place: u64)
    requires { Room out.old (at_text place) }
    ensures { Appended out.old (at_text place) out.new }
{
    out.put_word(b"(at ");
    out.put_number(place);
    out.put_word(b")\n");
}

pub fn put_opened(out: &mut Output<'_>)
    requires { Room out.old opened_text }
    ensures { Appended out.old opened_text out.new }
{
    out.put_word(b"(opened)\n");
}
