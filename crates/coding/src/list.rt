// Lists of codes: the last one, the first of a status, reduction, and a copy.
ghost use Rattle.std.specs.Prelude.{◌≡◌, ◌≤◌, ◌<◌, length, get_or, take, eqb};
ghost use Rattle.qbf.specs.Formula.{Prefix};
ghost use Rattle.qbf.specs.Learning.{Constraint, reduce};
ghost use Rattle.tables.specs.Codes.{last_code, codes, Quantified};
ghost use Rattle.coding.specs.First.{FirstWith};

use crate::code::cell;
use literal::{drops, kept_len};

// The last code; 0 where there is none.
// stays (no plainer): the definition `last_code` of an empty list is 0, and callers read the cell of that code in a table, or compare its place; an Option would be turned back into 0 at each
pub fn last_code(cells: &[u16]) -> u16
    ensures { result ≡ last_code cells.now }
{
    match cells.last() {
        Some(code) => *code,
        None => 0,
    }
}

// A byte in a wider number, where more than bytes are to be told apart.
// stays (no plainer): it is `From` of a byte, with the bound that a byte has, which each caller would prove for itself
pub fn wide(byte: u8) -> u16
    ensures { (result ≡ byte) × (result < 256) }
{
    u16::from(byte)
}

// The first code that has a status.
pub fn first_with(cells: &[u16], statuses: &[u8; tables::CODES], want: u8) -> Option<u16>
    ensures { FirstWith (λ c. eqb (get_or statuses.now c 0) want) cells.now result }
{
    cells
        .iter()
        .copied()
        .find(|code| cell(statuses, *code) == want)
}

// How many of the codes are left under reduction.
pub fn reduced_len(cells: &[u16], quantifiers: &[u8; tables::CODES], cube: bool) -> usize
    ensures { (result ≤ length cells.now)
        × ((D : Prefix) (e : Constraint)
        → Quantified D quantifiers.now
        → cells.now ≡ codes D e
        → take result cells.now ≡ codes D (reduce D cube e)) }
{
    kept_len(cells, |code| drops(wide(cell(quantifiers, code)), cube))
}

// The codes become the first cells.
pub fn write(cells: &mut [u16], row: &[u16])
    requires { length row.now ≤ length cells.old }
    ensures { (length cells.new ≡ length cells.old)
        × (take (length row.now) cells.new ≡ row.now) }
{
    cells[..row.len()].copy_from_slice(row);
}
