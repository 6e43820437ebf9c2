// A line's keyword, and what its form makes of the count of its items.
ghost use Rattle.std.specs.Prelude.{◌≡◌};
ghost use Rattle.reader.specs.Lines.{word_of, signs, block_of, line_of};

use crate::word::same_word;

#[derive(Clone, Copy)]
pub enum Word {
    Book,
    Flags,
    Exists,
    Forall,
    Rule,
    End,
}

// What a line holds. The numbers of a block and the literals of a rule are counted here and lie in a lent table; a block has its
// quantifier's code, tables::FREE, EXISTS or FORALL; the edition of a book is the table's first number.
// stays (form): a quantifier is its number in the flat table of kinds, where it is written as it was read; an enum would be turned back into that number there.
#[derive(Clone, Copy)]
pub enum Line {
    Book,
    Block(u16, usize),
    Rule(usize),
    End,
}

pub fn word_of(w: &[u8]) -> Option<Word>
    ensures { result ≡ word_of w.now }
{
    if same_word(w, b"book") {
        return Some(Word::Book);
    }
    if same_word(w, b"flags") {
        return Some(Word::Flags);
    }
    if same_word(w, b"exists") {
        return Some(Word::Exists);
    }
    if same_word(w, b"forall") {
        return Some(Word::Forall);
    }
    if same_word(w, b"rule") {
        return Some(Word::Rule);
    }
    if same_word(w, b"end") {
        return Some(Word::End);
    }
    None
}

impl Word {
    // Only a rule has signed items.
    pub fn takes_signs(self) -> bool
        ensures { result ≡ signs self }
    {
        matches!(self, Word::Rule)
    }
}

// "any `(exists ..)` or `(forall ..)` with at least one number"
// stays (no plainer): `group_of` of QDIMACS makes a line of another type; one function of both is given the line that it may answer, and is `then_some`.
fn block_of(quantifier: u16, n: usize) -> Option<Line>
    ensures { result ≡ block_of quantifier n }
{
    (n > 0).then_some(Line::Block(quantifier, n))
}

// The line of a keyword with n items.
pub fn line_of(w: Word, n: usize) -> Option<Line>
    ensures { result ≡ line_of w n }
{
    match w {
        Word::Book => (n == 1).then_some(Line::Book),
        Word::Flags => Some(Line::Block(tables::FREE, n)),
        Word::Exists => block_of(tables::EXISTS, n),
        Word::Forall => block_of(tables::FORALL, n),
        Word::Rule => Some(Line::Rule(n)),
        Word::End => (n == 0).then_some(Line::End),
    }
}
