// The flags of a query or a closest reading, as it asks of them.
ghost use Rattle.std.specs.Prelude.{◌≡◌, ◌≤◌, length, take};

use asking::asked::Asked;

// The numbers of the flags that are on, and of those that are off, each first in its table.
#[derive(Clone, Copy)]
pub struct NamedFlags {
    pub on: [i16; tables::BY_NUMBER],
    pub ons: usize,
    pub off: [i16; tables::BY_NUMBER],
    pub offs: usize,
    pub ghost few: { (ons ≤ length on) × (offs ≤ length off) },
}

impl NamedFlags {
    pub fn asked(&self, ceiling: u32) -> Asked<'_>
        ensures { (result.on.now ≡ take self.now.ons self.now.on)
            × (result.off.now ≡ take self.now.offs self.now.off)
            × (result.ceiling ≡ ceiling) }
    {
        Asked {
            on: &self.on[..self.ons],
            off: &self.off[..self.offs],
            ceiling,
        }
    }
}
