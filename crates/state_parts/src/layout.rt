// The limits of a state, which stand in its first two cells, and where its parts begin under them.
ghost use Rattle.std.specs.Prelude.{◌≡◌, get_or};
ghost use Rattle.state_parts.specs.Parts.{levels_at, kinds_at, clause_sizes_at, learned_clause_sizes_at, learned_cube_sizes_at, clause_cells, learned_cells, learned_cubes_at};
ghost use Rattle.state_parts.specs.Layout.{limits_in, LayoutRead};

use crate::limits::Layout;

// Behind the limits stand the numbers of the places.
pub const NUMBERS_AT: usize = 2;

const LEVELS_AT: usize = NUMBERS_AT + 1;

pub fn numbers_limit(cells: &[u16]) -> usize
    ensures { result ≡ get_or cells.now 0 0 }
{
    literal::cell_at(cells, 0) as usize
}

pub fn clauses_limit(cells: &[u16]) -> usize
    ensures { result ≡ get_or cells.now 1 0 }
{
    literal::cell_at(cells, 1) as usize
}

impl Layout {
    // "a state with higher ones is 22"
    pub fn read(cells: &[u16]) -> Option<Layout>
        ensures { LayoutRead cells.now result }
    {
        let numbers = numbers_limit(cells);
        let over = numbers > tables::HIGHEST_NUMBERS;
        if over {
            return None;
        }
        let clauses = clauses_limit(cells);
        if clauses > tables::HIGHEST_CLAUSES {
            return None;
        }
        Some(Layout { numbers, clauses })
    }

    pub fn levels_at(self) -> usize
        ensures { result ≡ levels_at (limits_in self) }
    {
        LEVELS_AT + self.numbers
    }

    pub fn kinds_at(self) -> usize
        ensures { result ≡ kinds_at (limits_in self) }
    {
        NUMBERS_AT + (self.numbers + 1) * 2
    }

    pub fn clause_sizes_at(self) -> usize
        ensures { result ≡ clause_sizes_at (limits_in self) }
    {
        NUMBERS_AT + (self.numbers + 1) * 3
    }

    pub fn learned_clause_sizes_at(self) -> usize
        ensures { result ≡ learned_clause_sizes_at (limits_in self) }
    {
        self.clause_sizes_at() + self.clauses + 1
    }

    pub fn learned_cube_sizes_at(self) -> usize
        ensures { result ≡ learned_cube_sizes_at (limits_in self) }
    {
        self.learned_clause_sizes_at() + tables::LEARNED_CLAUSE_SIZES
    }

    pub fn clause_cells(self) -> usize
        ensures { result ≡ clause_cells (limits_in self) }
    {
        self.clauses * tables::LITERALS
    }

    pub fn learned_cells(self) -> usize
        ensures { result ≡ learned_cells (limits_in self) }
    {
        tables::CONSTRAINTS * self.numbers
    }

    pub fn learned_cubes_at(self) -> usize
        ensures { result ≡ learned_cubes_at (limits_in self) }
    {
        self.clause_cells() + self.learned_cells()
    }
}
