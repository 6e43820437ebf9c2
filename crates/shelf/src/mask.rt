// The codes of a row as the bits of one word. A row whose word does not lie within that of all codes with a status has a code without it: its codes are
// not looked at.
ghost use Rattle.std.specs.Prelude.{◌≡◌};
ghost use Rattle.shelf.specs.Masks.{bit, Masks};

use bitset::rows::WIDTH;

// The bit of a code.
pub fn bit(code: u16) -> u64
    ensures { result ≡ bit code }
{
    1u64 << (code as usize % WIDTH)
}

// The bits of a row's codes.
pub fn mask_of(row: &[u16]) -> u64
    ensures { Masks result row.now }
{
    let mut mask = 0;
    for code in row.iter() {
        mask = mask | bit(*code);
    }
    mask
}
