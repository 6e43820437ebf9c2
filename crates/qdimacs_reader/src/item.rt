// A word as a literal of 16 bits. "off is a minus before our digits"
ghost use Rattle.std.specs.Prelude.{◌≡◌, ◌&&◌, get_or, eqb};
ghost use Rattle.layout.specs.Words.{same};
ghost use Rattle.qdimacs_form.specs.Lines.{minus, zero_word, literal};
ghost use Rattle.qdimacs_reader.specs.Items.{LiteralRead};

use reader::item::{narrow, off, on};
use reader::number::read_number;
use reader::word::same_word;

const MINUS: u8 = b'-';

// The word that ends a line's items.
pub fn is_zero(w: &[u8]) -> bool
    ensures { result ≡ same w.now zero_word }
{
    same_word(w, b"0")
}

// Whether a word has a minus before it, where those are allowed.
fn is_off(w: &[u8], signed: bool) -> bool
    ensures { result ≡ (signed && eqb (get_or w.now 0 0) minus) }
{
    signed && matches!(w, [MINUS, ..])
}

// `0` is no literal.
// stays (no plainer): `signed` is that of the definition `literal signed`; a function for each of its values would read the plain number a second time.
pub fn read_literal(w: &[u8], signed: bool) -> Option<i16>
    ensures { LiteralRead (literal signed w.now) result }
{
    if is_zero(w) {
        return None;
    }
    if is_off(w, signed) {
        let v = read_number(&w[1..])?;
        return Some(off(narrow(v)));
    }
    let v = read_number(w)?;
    Some(on(narrow(v)))
}
