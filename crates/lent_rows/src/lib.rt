// The rows of a flat table that is lent. What stands in such a table, and the laws of its rows: specs/ and proofs/.
#![tactic(auto)]

ghost use Rattle.std.specs.Prelude.{◌≡◌, ◌<◌, get_or};
ghost use Rattle.tables.specs.Views.{Standing, row};

use literal::cell_at;

pub mod order; // the rows one after the other

// Row k is the first cells from k * width on; the sizes are the number of rows, then the length of each row.
#[derive(Clone, Copy)]
pub struct LentRows<'a> {
    pub cells: &'a [i16],
    pub sizes: &'a [u16],
    pub width: usize,
    pub ghost standing: { Standing width cells.now sizes.now },
}

impl<'a> LentRows<'a> {
    pub fn count(self) -> usize
        ensures { result ≡ get_or self.entry.sizes.now 0 0 }
    {
        cell_at(self.sizes, 0) as usize
    }

    pub fn row(self, k: usize) -> &'a [i16]
        requires { k < get_or self.sizes.now 0 0 }
        ensures { result.now ≡ row self.entry.width self.entry.cells.now self.entry.sizes.now k }
    {
        let from = k * self.width;
        let end = from + cell_at(self.sizes, k + 1) as usize;
        &self.cells[from..end]
    }
}
