// The nine parts of a state that lies in two lent tables, each as short as its table leaves it.
ghost use Rattle.std.specs.Prelude.{◌≡◌};
ghost use Rattle.state.specs.Lent.{parts_state};
ghost use Rattle.state_parts.specs.Parts.{parts_under};
ghost use Rattle.state_parts.specs.Layout.{limits_in};

use crate::cut::part;
use crate::layout::NUMBERS_AT;
use crate::limits::Layout;
use state::parts::{Parts, Rows};
use state::prefix::Variables;

impl Layout {
    // The tables by number have a cell for each number up to the limit, and one more.
    pub fn parts<'a>(self, cells: &'a [u16], literals: &'a [i16]) -> Parts<'a>
        ensures { parts_state result ≡ parts_under (limits_in self) cells.now literals.now }
    {
        let by_number = self.numbers + 1;
        let learned = self.learned_cells();
        Parts {
            variables: Variables {
                numbers: part(cells, NUMBERS_AT, by_number),
                levels: part(cells, self.levels_at(), by_number),
                kinds: part(cells, self.kinds_at(), by_number),
            },
            clauses: Rows {
                flat: part(literals, 0, self.clause_cells()),
                sizes: part(cells, self.clause_sizes_at(), self.clauses + 1),
            },
            learned_clauses: Rows {
                flat: part(literals, self.clause_cells(), learned),
                sizes: part(
                    cells,
                    self.learned_clause_sizes_at(),
                    tables::LEARNED_CLAUSE_SIZES,
                ),
            },
            learned_cubes: Rows {
                flat: part(literals, self.learned_cubes_at(), learned),
                sizes: part(
                    cells,
                    self.learned_cube_sizes_at(),
                    tables::CONSTRAINT_SIZES,
                ),
            },
        }
    }
}
