// What a number of a line may be.
ghost use Rattle.std.specs.Prelude.{◌≤◌};

use crate::call::TABLE;

// At most so many digits, of which no number has more than 10, and no higher than the highest.
#[derive(Clone, Copy)]
pub struct Limit {
    pub digits: usize,
    pub top: u32,
    ghost few: { digits ≤ 10 },
}

pub const NUMBER: Limit = Limit {
    digits: 5,
    top: tables::HIGHEST_CEILING,
};

pub const CEILING: Limit = Limit {
    digits: 10,
    top: tables::HIGHEST_CEILING,
};

// Of a table: "at most 65,536"
pub const SIZE: Limit = Limit {
    digits: 5,
    top: TABLE as u32,
};
