// The clauses of a formula, in a table that is lent.
ghost use Rattle.std.specs.Prelude.{◌≡◌, ◌≤◌, ◌<◌, length, get_or};
ghost use Rattle.qbf.specs.Formula.{paper};
ghost use Rattle.tables.specs.Views.{row};
ghost use Rattle.book_writer.specs.Tables.{Standing, most_count};

use literal::cell_at;

// Clause k is the first cells from k * LITERALS on; the sizes are the number of the clauses, then the length of each.
// stays (no plainer): `lent_rows::LentRows` asks that the sizes have a cell for each row, which is not asked here, and does not say that no row is longer than
// `paper.literals`, by which the bytes of the text are counted.
#[derive(Clone, Copy)]
pub struct Clauses<'a> {
    pub cells: &'a [i16],
    pub sizes: &'a [u16],
    pub ghost standing: { Standing cells.now sizes.now },
}

impl<'a> Clauses<'a> {
    pub fn count(self) -> usize
        ensures is { result ≡ get_or self.entry.sizes.now 0 0 }
        ensures few { result ≤ most_count }
    {
        cell_at(self.sizes, 0) as usize
    }

    pub fn clause(self, k: usize) -> &'a [i16]
        requires { k < get_or self.sizes.now 0 0 }
        ensures is { result.now ≡ row paper.literals self.entry.cells.now self.entry.sizes.now k }
        ensures short { length result.now ≤ paper.literals }
    {
        let from = k * tables::LITERALS;
        let end = from + cell_at(self.sizes, k + 1) as usize;
        &self.cells[from..end]
    }
}
