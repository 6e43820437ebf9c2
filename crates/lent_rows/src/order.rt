// The rows one after the other.
ghost use Rattle.std.specs.Prelude.{◌≡◌};
ghost use Rattle.std.specs.Iterator.{YieldsFirstRef, item_count};
ghost use Rattle.tables.specs.Views.{rows_of};
ghost use Rattle.lent_rows.specs.Left.{left};

use crate::LentRows;

// The rows from one on.
#[derive(Drop)]
pub struct RowsFrom<'a> {
    table: LentRows<'a>,
    at: usize,
}

impl<'a> LentRows<'a> {
    pub fn rows(self) -> RowsFrom<'a>
        ensures { left result ≡ rows_of self.entry.width self.entry.cells.now self.entry.sizes.now }
    {
        RowsFrom { table: self, at: 0 }
    }
}

impl<'a> Iterator for RowsFrom<'a> {
    type Item = &'a [i16];

    ghost next_gives = { YieldsFirstRef left };

    ghost remaining = { item_count left };

    fn next(&mut self) -> Option<&'a [i16]> {
        if self.table.count() <= self.at {
            return None;
        }
        let row = self.table.row(self.at);
        self.at += 1;
        Some(row)
    }
}
