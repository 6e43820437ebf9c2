// What a search learned is written back into the parts of its state. Paper 02, wish 8: "its limit for the literals of a stored entry is that for numbers".
ghost use Rattle.state_parts.specs.Layout.{limits_in};
ghost use Rattle.search_calls.specs.Back.{Writable, BackWithin};

use asking::back::{clauses_back, cubes_back};
use search_entry::Learned;
use state_parts::layout::NUMBERS_AT;
use state_parts::limits::Layout;

// The numbers of the places are copied into the lent table, whose content is free, so that the cells behind them can be written.
pub fn write_back(
    layout: Layout,
    cells: &mut [u16],
    literals: &mut [i16],
    learned: &Learned<'_>,
    places: &mut [u16; tables::HIGHEST_BY_NUMBER],
)
    requires { Writable (limits_in layout) cells.old literals.old learned.now }
    ensures { BackWithin (limits_in layout) cells.old literals.old learned.now cells.new literals.new }
{
    let width = layout.numbers;
    let numbers = &mut places[..width + 1];
    numbers.copy_from_slice(&cells[NUMBERS_AT..layout.levels_at()]);
    let standing = cells[layout.clause_sizes_at()];
    let clauses_at = layout.clause_cells();
    let cubes_at = layout.learned_cubes_at();
    let end = cubes_at + layout.learned_cells();
    let sizes_at = layout.learned_clause_sizes_at();
    let cube_sizes_at = layout.learned_cube_sizes_at();
    let sizes_end = cube_sizes_at + tables::CONSTRAINT_SIZES;
    clauses_back(
        &mut literals[clauses_at..cubes_at],
        &mut cells[sizes_at..cube_sizes_at],
        width,
        &learned.clauses,
        numbers,
        standing,
    );
    cubes_back(
        &mut literals[cubes_at..end],
        &mut cells[cube_sizes_at..sizes_end],
        width,
        &learned.cubes,
        numbers,
    );
}
