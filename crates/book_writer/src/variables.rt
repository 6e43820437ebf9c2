// The lines of the variables: "neighbouring groups of one kind become one line".
ghost use Rattle.std.specs.Prelude.{◌≡◌};
ghost use Rattle.qbf.specs.Formula.{free, same_quantifier};
ghost use Rattle.state.specs.Reading.{quantifier_of, prefix_of};
ghost use Rattle.layout.specs.Opening.{variable};
ghost use Rattle.booktext.specs.Books.{variable_text, rest_text};
ghost use Rattle.book_writer.specs.Tables.{head_text};
ghost use Rattle.writer.specs.Appended.{Appended, Room};

use literal::{Place, cell_at};
use state::kinds::kind_at;
use state::prefix::Variables;
use writer::Output;

// Two codes of one quantifier: each above that of exists is one of forall.
// stays (no plainer): each code above that of exists is one of forall, so that two codes may differ and be of one quantifier
pub fn same_kind(a: u16, b: u16) -> bool
    ensures { result ≡ same_quantifier (quantifier_of a) (quantifier_of b) }
{
    a.min(tables::FORALL) == b.min(tables::FORALL)
}

// The end of a line of the kind `line`, and the word of the next, where that one's kind is another.
fn put_heading(out: &mut Output<'_>, line: u16, kind: u16)
    requires { Room out.old (head_text (quantifier_of line) (quantifier_of kind)) }
    ensures { Appended out.old (head_text (quantifier_of line) (quantifier_of kind)) out.new }
{
    if same_kind(line, kind) {
        return;
    }
    if kind == tables::FREE {
        out.put_word(b")\n(flags");
    } else if kind == tables::EXISTS {
        out.put_word(b")\n(exists");
    } else {
        out.put_word(b")\n(forall");
    }
}

// A variable where a line of the kind `line` stands open.
#[tactic(auto, using(crate::proofs::Places::variable_length))]
fn put_variable(out: &mut Output<'_>, line: u16, kind: u16, n: u16)
    requires { Room out.old (variable_text (quantifier_of line) (variable (quantifier_of kind) n)) }
    ensures { Appended out.old (variable_text (quantifier_of line) (variable (quantifier_of kind) n)) out.new }
{
    put_heading(out, line, kind);
    out.put_word(b" ");
    out.put_number(n as u64);
}

// From the flags' line on, one place after the other.
pub fn put_variables(out: &mut Output<'_>, variables: Variables<'_>)
    requires { Room out.old (rest_text free (prefix_of variables.numbers.now variables.levels.now variables.kinds.now)) }
    ensures { Appended
        out.old
        (rest_text free (prefix_of variables.entry.numbers.now variables.entry.levels.now variables.entry.kinds.now))
        out.new }
{
    let Variables {
        numbers,
        levels,
        kinds,
    } = variables;
    let count = cell_at(numbers, 0) as usize;
    let mut line = tables::FREE;
    // stays (no plainer): a step reads a number at a place, a level there, and a kind at that level, each 0 past its table's end: a zip of `numbers` and `levels` would
    // end with the shorter of them, and still read the kind by `cell_at`
    for i in 0..count {
        let kind = kind_at(levels, kinds, Place(i + 1));
        let n = cell_at(numbers, i + 1);
        put_variable(out, line, kind, n);
        line = kind;
    }
    out.put_word(b")\n");
}
