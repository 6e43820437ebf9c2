// A line by its first word: a comment, the header, a quantifier line or a clause.
ghost use Rattle.std.specs.Prelude.{◌≡◌, get_or, eqb};
ghost use Rattle.layout.specs.Words.{space, split};
ghost use Rattle.qdimacs_form.specs.Lines.{filled, comment_byte, line_from, line_of};
ghost use Rattle.qdimacs_reader.specs.Lines.{word_of, group_line, LineRead};

use crate::header::read_header;
use crate::items::read_literals;
use crate::word::{is_edged, next_word};
use reader::word::same_word;

const COMMENT: u8 = b'c';

// What a line holds. The numbers of a quantifier line and the literals of a clause are counted here and lie in a lent table; a quantifier
// line has its quantifier's code, tables::EXISTS or FORALL; a header has the counts of variables and of clauses.
// stays (form): as in our own text's lines, a quantifier is its number in the flat table of kinds, where it is written as it was read.
#[derive(Clone, Copy)]
pub enum Line {
    Comment,
    Header(u32, u32),
    Group(u16, usize),
    Clause(usize),
}

#[derive(Clone, Copy)]
enum Word {
    Header,
    Exists,
    Forall,
}

fn word_of(w: &[u8]) -> Option<Word>
    ensures { result ≡ word_of w.now }
{
    if same_word(w, b"p") {
        return Some(Word::Header);
    }
    if same_word(w, b"e") {
        return Some(Word::Exists);
    }
    if same_word(w, b"a") {
        return Some(Word::Forall);
    }
    None
}

// A quantifier line has at least one number.
// stays (no plainer): as `block_of` of our own text, which makes a line of another type: what they share is `then_some`.
fn group_of(quantifier: u16, n: usize) -> Option<Line>
    ensures { result ≡ group_line quantifier n }
{
    (n > 0).then_some(Line::Group(quantifier, n))
}

// Only a clause has signed items; it has no keyword. "a clause line of 0 alone 7": it is in the form.
fn read_words(l: &[u8], out: &mut [i16]) -> Option<Line>
    ensures { LineRead (line_from (filled (split space l.now))) result out.new }
{
    let first = next_word(Some(l))?;
    match word_of(first.word) {
        Some(Word::Header) => read_header(first.left),
        Some(Word::Exists) => group_of(tables::EXISTS, read_literals(first.left, false, out)?),
        Some(Word::Forall) => group_of(tables::FORALL, read_literals(first.left, false, out)?),
        None => Some(Line::Clause(read_literals(Some(l), true, out)?)),
    }
}

// "Lines that begin with c are skipped anywhere"
fn is_comment(l: &[u8]) -> bool
    ensures { result ≡ eqb (get_or l.now 0 0) comment_byte }
{
    matches!(l, [COMMENT, ..])
}

pub fn read_line(l: &[u8], out: &mut [i16]) -> Option<Line>
    ensures { LineRead (line_of l.now) result out.new }
{
    if is_comment(l) {
        return Some(Line::Comment);
    }
    if !is_edged(l) {
        return None;
    }
    read_words(l, out)
}
