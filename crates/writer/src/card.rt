// The whole card or keep card: its edition, its lines, its visits.
ghost use Rattle.std.specs.Prelude.{◌*◌, ◌≤◌, ◌<◌, length};
ghost use Rattle.layout.specs.Output.{visits_text, card_head};
ghost use Rattle.writer.specs.Rows.{rows_text, card_rows};
ghost use Rattle.writer.specs.Appended.{Appended, Room};

use crate::Output;

// The first rows of a card's table, as many as it has lines, each of as many bytes as there are free variables; and the numbers of the places.
#[derive(Clone, Copy)]
pub struct Lines<'a> {
    pub numbers: &'a [u16],
    pub table: &'a [u8],
    pub free: usize,
    pub count: usize,
    pub ghost within: { (free < length numbers.now) × (count * free ≤ length table.now) },
}

impl Output<'_> {
    pub fn put_lines(&mut self, lines: Lines<'_>)
        requires { Room self.old (rows_text lines.free lines.numbers.now lines.table.now lines.count) }
        ensures { Appended
            self.old
            (rows_text lines.entry.free lines.entry.numbers.now lines.entry.table.now lines.entry.count)
            self.new }
    {
        let mut rest = lines.table;
        'rows: for _ in 0..lines.count {
            let (row, behind) = rest.split_at(lines.free);
            self.put_line(lines.numbers, row);
            rest = behind;
        }
    }

    #[tactic(auto, using(crate::proofs::Lengths::visits_length))]
    pub fn put_visits(&mut self, visits: u64)
        requires { Room self.old (visits_text visits) }
        ensures { Appended self.old (visits_text visits) self.new }
    {
        self.put_word(b"(visits ");
        self.put_number(visits);
        self.put_word(b")\n");
    }

    // What it begins with: of the card, or of the keep card.
    // stays (no plainer): `yes` is the polarity that every definition of a card has, and this its first word
    fn put_head(&mut self, yes: bool)
        requires { Room self.old (card_head yes) }
        ensures { Appended self.old (card_head yes) self.new }
    {
        self.put_word(if yes {
            b"(card 1)\n"
        } else {
            b"(keep-card 1)\n"
        });
    }

    #[tactic(auto, using(crate::proofs::Lengths::card_length))]
    pub fn put_card(&mut self, yes: bool, lines: Lines<'_>, visits: u64)
        requires { Room self.old (card_rows yes lines.free lines.numbers.now lines.table.now lines.count visits) }
        ensures { Appended
            self.old
            (card_rows yes lines.entry.free lines.entry.numbers.now lines.entry.table.now lines.entry.count visits)
            self.new }
    {
        self.put_head(yes);
        self.put_lines(lines);
        self.put_visits(visits);
        self.put_word(b"(end)\n");
    }
}
