// A line of either edition, without its byte 10. Paper 02, wishes 10 and 13.
ghost use Rattle.std.specs.Prelude.{◌≡◌, true};
ghost use Rattle.layout.specs.Words.{space, split};
ghost use Rattle.layout.specs.Forms.{then, items};
ghost use Rattle.reader.specs.Pieces.{pieces};
ghost use Rattle.editions.specs.Lines.{exactly_one_line, rule_from, line_from, line_of};
ghost use Rattle.edition_reader.specs.Lines.{form_line, tag_from, LineRead};

use reader::brackets::inside;
use reader::items::read_items;
use reader::line::read_form;
use reader::number::closed_number;
use reader::word::{SPACE, cut, same_word};

// What a line holds. The numbers of a block and the literals of a rule are counted here and lie in a lent table, as in the first edition;
// a tagged rule has its tag, which is judged as it is written.
// stays (form): as in the first edition's lines, a quantifier is its number in the flat table of kinds, where it is written as it was read.
#[derive(Clone, Copy)]
pub enum Line {
    Book,
    Block(u16, usize),
    Rule(usize),
    Tagged(u32, usize),
    One(usize),
    End,
}

// A form of the first edition.
impl From<reader::keyword::Line> for Line {
    ghost from_gives = { λ l r. r ≡ form_line l };

    // stays (no plainer): this is the conversion itself
    fn from(l: reader::keyword::Line) -> Line {
        match l {
            reader::keyword::Line::Book => Line::Book,
            reader::keyword::Line::Block(kind, n) => Line::Block(kind, n),
            reader::keyword::Line::Rule(n) => Line::Rule(n),
            reader::keyword::Line::End => Line::End,
        }
    }
}

// What is left behind the word "(tag": its number, then the literals.
fn read_tagged(left: Option<&[u8]>, out: &mut [i16]) -> Option<Line>
    ensures { LineRead (tag_from (pieces space left.entry)) result out.new }
{
    let (word, more) = cut(left?, SPACE);
    let tag = closed_number(word)?;
    let n = read_items(more, true, out)?;
    Some(Line::Tagged(tag, n))
}

// What is left behind the keyword `rule`: "every rule form has a tag in front of its literals", or none has.
fn read_rule(left: Option<&[u8]>, out: &mut [i16]) -> Option<Line>
    ensures { LineRead (rule_from (pieces space left.entry)) result out.new }
{
    let Some(words) = left else {
        return Some(Line::Rule(0));
    };
    let (word, more) = cut(words, SPACE);
    if same_word(word, b"(tag") {
        return read_tagged(more, out);
    }
    let n = read_items(left, true, out)?;
    Some(Line::Rule(n))
}

// What is left behind the keyword `one`.
fn read_one(left: Option<&[u8]>, out: &mut [i16]) -> Option<Line>
    ensures { LineRead (then (items true (pieces space left.entry)) exactly_one_line) result out.new }
{
    let n = read_items(left, true, out)?;
    Some(Line::One(n))
}

// What stands between a line's brackets.
fn read_words(s: &[u8], out: &mut [i16]) -> Option<Line>
    ensures { LineRead (line_from (split space s.now)) result out.new }
{
    let (word, left) = cut(s, SPACE);
    if same_word(word, b"rule") {
        return read_rule(left, out);
    }
    if same_word(word, b"one") {
        return read_one(left, out);
    }
    let form = read_form(s, out)?;
    Some(Line::from(form))
}

pub fn read_line(l: &[u8], out: &mut [i16]) -> Option<Line>
    ensures { LineRead (line_of l.now) result out.new }
{
    read_words(inside(l)?, out)
}
