// Whether the codes of a row all have one status.
ghost use Rattle.std.specs.Prelude.{◌≡◌, get_or, eqb};
ghost use Rattle.std.specs.List.{list_all};

use coding::code::cell;

// Every code of the row has the status wanted.
pub fn all_are<'a>(cells: &'a [u16], statuses: &'a [u8; tables::CODES], want: u8) -> bool
    ensures { result ≡ list_all (λ c. eqb (get_or statuses.now c 0) want) cells.now }
{
    cells.iter().all(|code| cell(statuses, *code) == want)
}
