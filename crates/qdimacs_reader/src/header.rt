// The header, `p cnf V C`: what is left behind its first word.
ghost use Rattle.std.specs.Prelude.{List, ℤ};
ghost use Rattle.qdimacs_form.specs.Lines.{header_from};
ghost use Rattle.qdimacs_reader.specs.Words.{words};
ghost use Rattle.qdimacs_reader.specs.Lines.{LineRead};

use crate::line::Line;
use crate::word::next_word;
use reader::number::read_number;
use reader::word::same_word;

// Three words follow, and no fourth.
pub fn read_header(left: Option<&[u8]>) -> Option<Line>
    ensures { (out : List ℤ) → LineRead (header_from (words left.entry)) result out }
{
    let form = next_word(left)?;
    let variables = next_word(form.left)?;
    let clauses = next_word(variables.left)?;
    if next_word(clauses.left).is_some() {
        return None;
    }
    if !same_word(form.word, b"cnf") {
        return None;
    }
    let v = read_number(variables.word)?;
    let c = read_number(clauses.word)?;
    Some(Line::Header(v, c))
}
