// A literal's code, twice its place and one more where it is positive; and a code's literal.
ghost use Rattle.std.specs.Prelude.{◌≡◌, Bool, true, not, [], ℕ, ◌/◌, ◌≤◌, ◌<◌, length, get_or, take};
ghost use Rattle.qbf.specs.Formula.{highest, Prefix, Literal, place};
ghost use Rattle.qbf.specs.Calls.{numbers_are_ok};
ghost use Rattle.tables.specs.Views.{Places, Numbers};
ghost use Rattle.tables.specs.Codes.{code_at, code_of, codes, last_code};
ghost use Rattle.tables.specs.Shelves.{code_count};

use literal::{byte_at, cell_at, literal_place};

// The place of a code's variable.
pub fn place_of(code: u16) -> usize
    ensures { result ≡ code / 2 }
{
    (code / 2) as usize
}

// The code of the opposite literal.
// stays (no plainer): `u16 < code_count` is of a number that is read from a cell and is an index of another: a type of it would be made where it is read, and opened at each index
pub fn opposite(code: u16) -> u16
    requires { code < code_count }
    ensures low { result < code_count }
    ensures there { (p : ℕ) (b : Bool) → code ≡ code_at p b → result ≡ code_at p (not b) }
    ensures back { (p : ℕ) (b : Bool) → result ≡ code_at p b → code ≡ code_at p (not b) }
{
    if code % 2 == 0 {
        return code + 1;
    }
    code - 1
}

// A cell of a table by code; 0 where the code is of no place that a variable can have.
// stays (no plainer): the definitions read a table by `get_or t code 0` too: behind its end a code is open, or free, as the two codes of place 0 are, which is no variable's
pub fn cell<'a>(table: &'a [u8; tables::CODES], code: u16) -> u8
    ensures { result ≡ get_or table.now code 0 }
{
    byte_at(table, code as usize)
}

// The code of a literal. A place past the numbers is no variable's; it gets the code 0.
pub fn code_of<'a>(places: &'a [u16], lit: i16) -> u16
    ensures { (result < code_count)
        × ((D : Prefix) → Places D places.now → length D ≤ highest.numbers → result ≡ code_of D lit) }
{
    let place = literal_place(places, lit);
    if tables::HIGHEST_NUMBERS < place {
        return 0;
    }
    if lit < 0 {
        return (place * 2) as u16;
    }
    (place * 2 + 1) as u16
}

// The codes of a list of literals, in the first cells.
pub fn encode(cells: &mut [u16], lits: &[i16], places: &[u16])
    requires { length lits.now ≤ length cells.old }
    ensures { (length cells.new ≡ length cells.old)
        × ((n : ℕ) → n ≤ length lits.now → last_code (take n cells.new) < code_count)
        × ((D : Prefix)
        → Places D places.now
        → length D ≤ highest.numbers
        → take (length lits.now) cells.new ≡ codes D lits.now) }
{
    // stays (proof): with `cells.iter_mut().zip(lits)` the goal `returns` stays open: of a loop over a zip a proof knows what its iterator gave, and not what
    // was written through it
    for (i, lit) in lits.iter().enumerate() {
        cells[i] = code_of(places, *lit);
    }
}

// The literal of a code; 0 where its place has no variable.
// stays (no plainer): the caller writes it into a lent table of literals (`unloading`), in which 0 is no literal; of an Option it would write 0 for none
pub fn literal_of<'a>(numbers: &'a [u16], code: u16) -> i16
    ensures { (D : Prefix) (l : Literal)
        → Numbers D numbers.now
        → numbers_are_ok highest [] D ≡ true
        → code_of D l ≡ code
        → 1 ≤ place D l
        → result ≡ l }
{
    let place = place_of(code);
    let number = cell_at(numbers, place);
    if (tables::HIGHEST_NUMBERS as u16) < number {
        return 0;
    }
    if code % 2 == 0 {
        return -(number as i16);
    }
    number as i16
}
