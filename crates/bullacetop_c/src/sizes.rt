// How long the two tables of a state have to be, and the one that its text is written into.
ghost use Rattle.std.specs.Prelude.{◌≡◌, get_or};
ghost use Rattle.qbf.specs.Formula.{capped};
ghost use Rattle.state_parts.specs.Parts.{cell_count, literal_count};
ghost use Rattle.booktext.specs.Books.{text_room};

// Cells of a state under these limits.
#[unsafe(no_mangle)]
pub extern "C" fn bullacetop_book_cells(numbers: usize, rules: usize) -> usize
    ensures { result ≡ cell_count (capped numbers rules) }
{
    book_calls::sizes::bullacetop_book_cells(numbers, rules)
}

// Literals of a state under these limits.
#[unsafe(no_mangle)]
pub extern "C" fn bullacetop_book_literals(numbers: usize, rules: usize) -> usize
    ensures { result ≡ literal_count (capped numbers rules) }
{
    book_calls::sizes::bullacetop_book_literals(numbers, rules)
}

// Bytes of any text that may be written of this state.
#[unsafe(no_mangle)]
pub extern "C" fn bullacetop_book_room(cells: &[u16]) -> usize
    ensures { result ≡ text_room (capped (get_or cells.now 0 0) (get_or cells.now 1 0)) }
{
    book_calls::sizes::bullacetop_book_room(cells)
}
