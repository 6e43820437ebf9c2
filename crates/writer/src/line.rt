// A line of a card: "each line's set flags in place order".
ghost use Rattle.std.specs.Prelude.{◌<◌, length};
ghost use Rattle.writer.specs.Rows.{item_text, items_from, row_text};
ghost use Rattle.writer.specs.Appended.{Appended, Room};

use crate::Output;

impl Output<'_> {
    // The item of a variable's number and its value in a row; one that is open has none.
    pub fn put_item(&mut self, n: u16, v: u8)
        requires { Room self.old (item_text n v) }
        ensures { Appended self.old (item_text n v) self.new }
    {
        if v == tables::ON {
            self.put_word(b" ");
            self.put_number(n as u64);
        } else if v == tables::OFF {
            self.put_word(b" (no ");
            self.put_number(n as u64);
            self.put_word(b")");
        }
    }

    // The items of a row, by the numbers of the places.
    pub fn put_items(&mut self, numbers: &[u16], row: &[u8])
        requires row_in_bounds { length row.now < length numbers.now }
        requires room { Room self.old (items_from numbers.now 1 row.now) }
        ensures { Appended self.old (items_from numbers.now 1 row.now) self.new }
    {
        for (number, v) in numbers[1..].iter().zip(row) {
            self.put_item(*number, *v);
        }
    }

    // A row of the card's table.
    #[tactic(auto, using(crate::proofs::Written::row_length))]
    pub fn put_line(&mut self, numbers: &[u16], row: &[u8])
        requires row_in_bounds { length row.now < length numbers.now }
        requires room { Room self.old (row_text numbers.now row.now) }
        ensures { Appended self.old (row_text numbers.now row.now) self.new }
    {
        self.put_word(b"(line");
        self.put_items(numbers, row);
        self.put_word(b")\n");
    }
}
