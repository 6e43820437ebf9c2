// A byte, and a word of bytes.
ghost use Rattle.std.specs.Prelude.{[], ◌∷◌};
ghost use Rattle.writer.specs.Appended.{Appended, Room};

use crate::Output;

impl Output<'_> {
    pub fn put_byte(&mut self, b: u8)
        requires { Room self.old (b ∷ []) }
        ensures { Appended self.old (b ∷ []) self.new }
    {
        self.bytes[self.at] = b;
        self.at += 1;
    }

    pub fn put_word(&mut self, w: &[u8])
        requires { Room self.old w.now }
        ensures { Appended self.old w.now self.new }
    {
        let end = self.at + w.len();
        self.bytes[self.at..end].copy_from_slice(w);
        self.at = end;
    }
}
