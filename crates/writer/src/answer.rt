// Refusals, and the answers of a session that are no card.
ghost use Rattle.std.specs.Prelude.{◌<◌, ◌++◌, length};
ghost use Rattle.layout.specs.Output.{decimal, refusal_text, overflow_text, query_text};
ghost use Rattle.writer.specs.Rows.{closest_row};
ghost use Rattle.writer.specs.Appended.{Appended, Room};

use crate::Output;

// A closest reading by its bytes, 1 off and 2 on, and the numbers of the places; in how many flags it differs; the lines of its card,
// and the visits.
#[derive(Clone, Copy)]
pub struct Closest<'a> {
    pub numbers: &'a [u16],
    pub reading: &'a [u8],
    pub differs: u64,
    pub lines: u64,
    pub visits: u64,
    pub ghost within: { length reading.now < length numbers.now },
}

impl Output<'_> {
    // "number and text line from 1 (0 for 9)"
    #[tactic(auto, using(crate::proofs::Lengths::refusal_length))]
    pub fn put_refusal(&mut self, n: u64, line: u64)
        requires { Room self.old (refusal_text n line) }
        ensures { Appended self.old (refusal_text n line) self.new }
    {
        self.put_word(b"(refused ");
        self.put_number(n);
        self.put_word(b" ");
        self.put_number(line);
        self.put_word(b")\n");
    }

    // A card too large for its table, with the visits of its search.
    #[tactic(auto, using(crate::proofs::Lengths::overflow_length))]
    pub fn put_overflow(&mut self, n: u64, line: u64, visits: u64)
        requires { Room self.old (overflow_text n line visits) }
        ensures { Appended self.old (overflow_text n line visits) self.new }
    {
        self.put_word(b"(refused ");
        self.put_number(n);
        self.put_word(b" ");
        self.put_number(line);
        self.put_word(b" (visits ");
        self.put_number(visits);
        self.put_word(b"))\n");
    }

    // The word of a verdict, and the visits.
    #[tactic(auto, using(crate::proofs::Lengths::query_length))]
    pub fn put_query(&mut self, word: &[u8], visits: u64)
        requires { Room self.old (query_text word.now visits) }
        ensures { Appended self.old (query_text word.now visits) self.new }
    {
        self.put_word(b"(");
        self.put_word(word);
        self.put_word(b" (visits ");
        self.put_number(visits);
        self.put_word(b"))\n");
    }

    // A word, and then a number.
    fn put_counted(&mut self, word: &[u8], n: u64)
        requires { Room self.old (word.now ++ decimal n) }
        ensures { Appended self.old (word.now ++ decimal n) self.new }
    {
        self.put_word(word);
        self.put_number(n);
    }

    #[tactic(auto, using(crate::proofs::Lengths::closest_length))]
    pub fn put_closest(&mut self, found: Closest<'_>)
        requires { Room self.old (closest_row found.numbers.now found.reading.now found.differs found.lines found.visits) }
        ensures { Appended
            self.old
            (closest_row found.entry.numbers.now found.entry.reading.now found.entry.differs found.entry.lines found.entry.visits)
            self.new }
    {
        self.put_word(b"(closest (reading");
        self.put_items(found.numbers, found.reading);
        self.put_counted(b") (differs ", found.differs);
        self.put_counted(b") (lines ", found.lines);
        self.put_counted(b") (visits ", found.visits);
        self.put_word(b"))\n"); // of the visits, and of all
    }
}
