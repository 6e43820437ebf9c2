// What the calls write into the state's tables: literals into a table of literals, and that no row stands.
ghost use Rattle.std.specs.Prelude.{◌≡◌, ◌+◌, ◌≤◌, length, set};
ghost use Rattle.std.proofs.Math.Seq.{paste};

pub fn write(cells: &mut [i16], at: usize, lits: &[i16])
    requires { at + length lits.now ≤ length cells.old }
    ensures { cells.new ≡ paste cells.old at lits.now (length lits.now) }
{
    cells[at..at + lits.len()].copy_from_slice(lits);
}

// The cells are left as they are.
pub fn clear(sizes: &mut [u16])
    requires { 1 ≤ length sizes.old }
    ensures { sizes.new ≡ set sizes.old 0 0 }
{
    sizes[0] = 0;
}
