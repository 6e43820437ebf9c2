// A table that is lent to be written.
ghost use Rattle.std.specs.Prelude.{suc, ◌*◌, ◌≤◌, length};
ghost use Rattle.qbf.specs.Formula.{paper};

// Rows of so many cells, and behind their number the size of each: there is room for every row that can stand.
#[derive(Drop)]
pub struct LentTable<'a> {
    pub cells: &'a mut [i16],
    pub sizes: &'a mut [u16],
    pub width: usize,
    pub ghost room: { paper.constraints * width ≤ length cells.now },
    pub ghost counted: { suc paper.constraints ≤ length sizes.now },
}
