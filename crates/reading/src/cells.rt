// Cells of the tables, read where they are.
ghost use Rattle.std.specs.Prelude.{◌≡◌, suc, get_or, eqb};

use literal::Number;

pub fn is_open<'a>(values: &'a [u8], number: Number) -> bool
    ensures { result ≡ eqb (get_or values.now number.0 0) 0 }
{
    literal::byte_at(values, number.0) == tables::OPEN
}

// The number of the variable after i others; 0 past the table.
// stays (no plainer): the definitions read 0 there too, which is the number of no variable. `state::cells::cell_after` reads such a cell as it is; this crate does not
// stand on `state`, and over one of the two in `literal` this would still be the function that makes a `Number` of it
pub fn number_after<'a>(numbers: &'a [u16], i: usize) -> Number
    ensures { result.0 ≡ get_or numbers.now (suc i) 0 }
{
    if i < numbers.len() {
        let place = i + 1;
        return Number(literal::cell_at(numbers, place) as usize);
    }
    Number(0)
}
