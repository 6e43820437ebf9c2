// A card or keep card as an answer, from what its call told in numbers and from the names of the variables, however the state lies; and the names of a state in two
// lent tables.
#![tactic(auto)]

ghost use Rattle.std.specs.Prelude.{◌≤◌, length};
ghost use Rattle.layout.specs.Program.{table_bytes};

pub mod card;
pub mod names;

// Of a card, or of a keep card where `yes` is false.
#[derive(Clone, Copy)]
pub struct Sought {
    pub yes: bool,
    pub ceiling: u32,
}

// What was sought, and the table in which its lines stand.
#[derive(Clone, Copy)]
pub struct Filled<'a> {
    pub sought: Sought,
    pub table: &'a [u8],
    pub ghost small: { length table.now ≤ table_bytes },
}
