// Words of a line: a text is cut at a byte, and a word is a given one or not.
ghost use Rattle.std.specs.Prelude.{◌≡◌, ◌==◌, position};
ghost use Rattle.layout.specs.Words.{same};
ghost use Rattle.reader.specs.Pieces.{Cut};

pub const NEWLINE: u8 = b'\n';

pub const SPACE: u8 = b' ';

pub const OPENING: u8 = b'(';

pub const CLOSING: u8 = b')';

fn first(s: &[u8], c: u8) -> Option<usize>
    ensures { result ≡ position (λ b. b == c) s.now }
{
    s.iter().position(|b| *b == c)
}

// What stands before the first byte c of a text, and what is left behind that byte, where there is one.
pub fn cut(s: &[u8], c: u8) -> (&[u8], Option<&[u8]>)
    ensures { Cut c s.now result.0.now result.1 }
{
    match first(s, c) {
        Some(n) => (&s[..n], Some(&s[n + 1..])),
        None => (s, None),
    }
}

// stays (no plainer): `==` says what the definition `same` does, and its law is cited here once for all words.
pub fn same_word(w: &[u8], v: &[u8]) -> bool
    ensures { result ≡ same w.now v.now }
{
    w == v
}
