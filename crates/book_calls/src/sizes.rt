// How long the two tables of a state have to be, and the one that its text is written into.
ghost use Rattle.std.specs.Prelude.{◌≡◌, get_or};
ghost use Rattle.qbf.specs.Formula.{capped};
ghost use Rattle.state_parts.specs.Layout.{limits_in};
ghost use Rattle.state_parts.specs.Parts.{cell_count, literal_count};
ghost use Rattle.booktext.specs.Books.{text_room};

use book_writer::longest::longest_at;
use state_parts::limits::Layout;

// "capped at these"
fn layout_of(numbers: usize, rules: usize) -> Layout
    ensures { limits_in result ≡ capped numbers rules }
{
    Layout {
        numbers: numbers.min(tables::HIGHEST_NUMBERS),
        clauses: rules.min(tables::HIGHEST_CLAUSES),
    }
}

// Cells of a state under these limits.
pub fn bullacetop_book_cells(numbers: usize, rules: usize) -> usize
    ensures { result ≡ cell_count (capped numbers rules) }
{
    let layout = layout_of(numbers, rules);
    layout.learned_cube_sizes_at() + tables::CONSTRAINT_SIZES
}

// Literals of a state under these limits.
pub fn bullacetop_book_literals(numbers: usize, rules: usize) -> usize
    ensures { result ≡ literal_count (capped numbers rules) }
{
    let layout = layout_of(numbers, rules);
    layout.learned_cubes_at() + layout.learned_cells()
}

// Bytes of any text that may be written of this state.
pub fn bullacetop_book_room(cells: &[u16]) -> usize
    ensures { result ≡ text_room (capped (get_or cells.now 0 0) (get_or cells.now 1 0)) }
{
    longest_at(cells)
}
