// Parts of a lent table. One that is not there, or not to its end, is shorter.
ghost use Rattle.std.specs.Prelude.{◌≡◌};
ghost use Rattle.state_parts.specs.Parts.{part};

// stays (no plainer): what is given is how long the part is to be, and not how long the table is
pub fn part<T>(table: &[T], from: usize, len: usize) -> &[T]
    ensures { result.now ≡ part from len table.now }
{
    let start = from.min(table.len());
    let end = start + len.min(table.len() - start);
    &table[start..end]
}
