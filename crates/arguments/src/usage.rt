// The line that a program prints where its arguments are outside the form.
ghost use Rattle.std.specs.Prelude.{◌≤◌, length};
ghost use Rattle.arguments.specs.Arguments.{usage_text, longest_name};
ghost use Rattle.writer.specs.Appended.{Appended, Room};
ghost use Rattle.writer.specs.Wrote.{Wrote};

use std::io;
use std::io::Print;
use writer::Output;

// No program has a longer name.
const NAME: usize = 40;

const LINE: usize = NAME + b"usage: ".len() + b" [NUMBERS RULES]\n".len();

#[tactic(auto, using(crate::proofs::Lengths::usage_length))]
fn put_usage(out: &mut Output<'_>, name: &[u8])
    requires { Room out.old (usage_text name.now) }
    ensures { Appended out.old (usage_text name.now) out.new }
{
    out.put_word(b"usage: ");
    out.put_word(name);
    out.put_word(b" [NUMBERS RULES]\n");
}

// The line in a lent table that has room for it: how long it is.
pub fn write_usage(out: &mut [u8], name: &[u8]) -> usize
    requires { length (usage_text name.now) ≤ length out.old }
    ensures { Wrote out.old 0 (usage_text name.now) out.new result }
{
    let mut line = Output { bytes: out, at: 0 };
    put_usage(&mut line, name);
    line.at
}

// stays (no plainer): `length [u8] ≤ longest_name` is of a word that each program writes once; a type for it would be made there and taken off where it is printed
#[tactic(auto, using(crate::proofs::Lengths::usage_length))]
pub fn print_usage(rt: &impl Print, name: &[u8]) -> io::Result<()>
    requires { length name.now ≤ longest_name }
{
    let mut line = [0u8; LINE];
    let length = write_usage(&mut line, name);
    rt.write_all(line.get(..length).unwrap_or(&line))
}
