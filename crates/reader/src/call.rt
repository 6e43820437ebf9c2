// A call of a session on one line, without its byte 10: `(rule ..)`, `(query ..)`, `(card)`, `(card 4)`, `(keep-card)`, `(keep-card 4)`,
// `(forget)`, `(withdraw)`, `(one ..)` or `(closest ..)`.
ghost use Rattle.std.specs.Prelude.{◌≡◌};
ghost use Rattle.layout.specs.Words.{space, split};
ghost use Rattle.layout.specs.Forms.{then};
ghost use Rattle.layout.specs.Program.{table_bytes};
ghost use Rattle.layout.specs.Endings.{within};
ghost use Rattle.layout.specs.Session.{call_from};
ghost use Rattle.reader.specs.Numbers.{num_of};
ghost use Rattle.reader.specs.Pieces.{pieces};
ghost use Rattle.reader.specs.Calls.{call_word_of, call_signs, card_size, CallRead};

use crate::items::read_items;
use crate::limit::SIZE;
use crate::number::read_up_to;
use crate::word::{SPACE, cut, same_word};

// "The program's card table has 65,536 bytes"
pub const TABLE: usize = 65536;

// The call of a line. The literals of a rule or an exactly-one form, and those by which a query or a closest reading names flags, are
// counted here and lie in the lent table, as many as it holds; a card and a closest reading have the size of their table.
#[derive(Clone, Copy)]
pub enum CallLine {
    Rule(usize),
    Query(usize),
    Card(usize),
    KeepCard(usize),
    Forget,
    Withdraw,
    One(usize),
    Closest(usize, usize),
}

#[derive(Clone, Copy)]
enum CallWord {
    Rule,
    Query,
    Card,
    KeepCard,
    Forget,
    Withdraw,
    One,
    Closest,
}

fn call_word(w: &[u8]) -> Option<CallWord>
    ensures { result ≡ call_word_of w.now }
{
    if same_word(w, b"rule") {
        return Some(CallWord::Rule);
    }
    if same_word(w, b"query") {
        return Some(CallWord::Query);
    }
    if same_word(w, b"card") {
        return Some(CallWord::Card);
    }
    if same_word(w, b"keep-card") {
        return Some(CallWord::KeepCard);
    }
    if same_word(w, b"forget") {
        return Some(CallWord::Forget);
    }
    if same_word(w, b"withdraw") {
        return Some(CallWord::Withdraw);
    }
    if same_word(w, b"one") {
        return Some(CallWord::One);
    }
    if same_word(w, b"closest") {
        return Some(CallWord::Closest);
    }
    None
}

impl CallWord {
    // A rule, an exactly-one form, a query and a closest reading have signed items.
    fn takes_signs(self) -> bool
        ensures { result ≡ call_signs self }
    {
        matches!(
            self,
            CallWord::Rule | CallWord::Query | CallWord::One | CallWord::Closest
        )
    }
}

// The size that a card gives for its table behind its word: the whole table, or a number. It is read from the bytes, since the items
// are narrowed.
fn card_size(left: Option<&[u8]>) -> Option<u32>
    ensures { num_of result ≡ then (card_size (pieces space left.entry)) (within table_bytes) }
{
    match left {
        Some(words) => read_up_to(words, SIZE),
        None => Some(TABLE as u32),
    }
}

// The call of the words before the size of its table and its ceiling, with the whole table and under the highest.
pub fn read_words(s: &[u8], out: &mut [i16]) -> Option<CallLine>
    ensures { CallRead (call_from (split space s.now)) result out.new }
{
    let (word, left) = cut(s, SPACE);
    let w = call_word(word)?;
    let n = read_items(left, w.takes_signs(), out)?;
    match w {
        CallWord::Rule => Some(CallLine::Rule(n)),
        CallWord::Query => Some(CallLine::Query(n)),
        CallWord::Card => Some(CallLine::Card(card_size(left)? as usize)),
        CallWord::KeepCard => Some(CallLine::KeepCard(card_size(left)? as usize)),
        CallWord::Forget => (n == 0).then_some(CallLine::Forget),
        CallWord::Withdraw => (n == 0).then_some(CallLine::Withdraw),
        CallWord::One => Some(CallLine::One(n)),
        CallWord::Closest => Some(CallLine::Closest(n, TABLE)),
    }
}
