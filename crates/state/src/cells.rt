// Cells of a table, read as 0 past its end.
ghost use Rattle.std.specs.Prelude.{◌≡◌, length, get_or};
ghost use Rattle.state.specs.Reading.{entry_at, record_at};
ghost use Rattle.state.specs.Derived.{Cleared};

use literal::cell_at;

pub fn count(table: &[u16]) -> usize
    ensures { result ≡ get_or table.now 0 0 }
{
    cell_at(table, 0) as usize
}

// What follows i others: cell i + 1.
pub fn cell_after(table: &[u16], i: usize) -> u16
    ensures { result ≡ entry_at table.now i }
{
    if i < table.len() {
        cell_at(table, i + 1)
    } else {
        0
    }
}

pub fn entry(table: &[u16], i: usize) -> usize
    ensures { result ≡ entry_at table.now i }
{
    cell_after(table, i) as usize
}

// The record of learned clause i, which stands behind the sizes.
pub fn record(table: &[u16], i: usize) -> usize
    ensures { result ≡ record_at table.now i }
{
    if i < table.len() {
        cell_at(table, tables::CONSTRAINT_SIZES + i) as usize
    } else {
        0
    }
}

// Every cell is 0, whatever it was.
pub fn clear(table: &mut [u16])
    ensures { Cleared (length table.old) table.new }
{
    table.fill(0);
}
