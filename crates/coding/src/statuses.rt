// The status of every code at a node: a place that gets a value changes two cells.
ghost use Rattle.std.specs.Prelude.{◌≡◌, true, false, [], ◌≤◌, length, get_or, set};
ghost use Rattle.qbf.specs.Formula.{highest, Prefix, Node};
ghost use Rattle.qbf.specs.Calls.{numbers_are_ok};
ghost use Rattle.tables.specs.Views.{Numbers, Values};
ghost use Rattle.tables.specs.Codes.{code_at, Statuses, given};

use literal::{byte_at, cell_at, negated};

// What the two codes of a place had.
#[derive(Clone, Copy)]
pub struct Was {
    pub negative: u8,
    pub positive: u8,
}

// The variable of a place is given a value.
// stays (no plainer): `usize ≤ highest.numbers` is asked of a place alone, whose two codes are indices here: `literal::Place` is of any limit and keeps no fact; a struct of one number that
// did would be made at each call and opened at the index
pub fn give(statuses: &mut [u8; tables::CODES], place: usize, value: u8) -> Was
    requires { place ≤ highest.numbers }
    ensures { (statuses.new ≡ given place value statuses.old)
        × (result.negative ≡ get_or statuses.old (code_at place false) 0)
        × (result.positive ≡ get_or statuses.old (code_at place true) 0) }
{
    let negative = place * 2;
    let positive = place * 2 + 1;
    let was = Was {
        negative: statuses[negative],
        positive: statuses[positive],
    };
    statuses[negative] = negated(value);
    statuses[positive] = value;
    was
}

// .. which is taken back.
pub fn restore(statuses: &mut [u8; tables::CODES], place: usize, was: Was)
    requires { place ≤ highest.numbers }
    ensures { statuses.new
        ≡ set (set statuses.old (code_at place false) was.negative) (code_at place true) was.positive }
{
    statuses[place * 2] = was.negative;
    statuses[place * 2 + 1] = was.positive;
}

// The value of the variable of a place, by its number.
fn value_at<'a>(numbers: &'a [u16], values: &'a [u8], place: usize) -> u8
    ensures { result ≡ get_or values.now (get_or numbers.now place 0) 0 }
{
    let number = cell_at(numbers, place) as usize;
    byte_at(values, number)
}

// The statuses at the node whose values by number are given: the first `at` places have them. The table's content before is free.
// stays (no plainer): `usize ≤ highest.numbers` is of one number that says how far a table is read; a type for it would be taken off at that table
pub fn statuses_of<'a>(
    numbers: &'a [u16],
    values: &'a [u8],
    at: usize,
    statuses: &mut [u8; tables::CODES],
)
    requires { at ≤ highest.numbers }
    ensures { (D : Prefix) (s : Node)
        → Numbers D numbers.now
        → Values D s values.now
        → numbers_are_ok highest [] D ≡ true
        → length s ≡ at
        → length s ≤ length D
        → Statuses s statuses.new }
{
    *statuses = [tables::OPEN; tables::CODES];
    // stays (no plainer): a chain is `numbers.iter().enumerate().skip(1).take(at)`, three steps and a pair for a range and an accessor by place
    for i in 0..at {
        let place = i + 1;
        let value = value_at(numbers, values, place);
        give(statuses, place, value);
    }
}
