// The tables of a checked state that a search reads.
ghost use Rattle.asking.specs.Answered.{GivenOf};

use crate::checked::Checked;
use lent_rows::LentRows;
use searching::given::Given;
use state::parts::Parts;

impl<'a> Checked<'a> {
    // What a search reads of it: "its limit for the literals of a stored entry is that for numbers".
    pub fn given(self) -> Given<'a>
        ensures { GivenOf self.entry result }
    {
        let Parts {
            variables,
            clauses,
            learned_clauses,
            learned_cubes,
        } = self.parts;
        let numbers = self.numbers;
        Given {
            numbers: variables.numbers,
            clauses: LentRows {
                cells: clauses.flat,
                sizes: clauses.sizes,
                width: tables::LITERALS,
            },
            learned_clauses: LentRows {
                cells: learned_clauses.flat,
                sizes: learned_clauses.sizes,
                width: numbers,
            },
            learned_cubes: LentRows {
                cells: learned_cubes.flat,
                sizes: learned_cubes.sizes,
                width: numbers,
            },
        }
    }
}
