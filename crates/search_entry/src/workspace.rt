// What a search derives from a state, and what it puts aside. Paper 02, wish 8: a search of a book under the highest limits has some five million
// bytes of tables, more than a stack has room for; whoever calls lends them. They keep nothing between calls: their content before a call is free, so
// that one workspace serves any number of books, and is cleared for none of them.
use crate::{ASIDE, Matrix, Trail};

// Plain tables, so that other programs can lend them.
#[repr(C)]
#[derive(Drop)]
pub struct Workspace {
    pub matrix: Matrix,
    pub clause_cells: [u16; tables::CONSTRAINT_CODES],
    pub clause_links: [u64; tables::CONSTRAINT_LINKS],
    pub clause_masks: [u64; tables::CONSTRAINTS],
    pub cube_cells: [u16; tables::CONSTRAINT_CODES],
    pub cube_links: [u64; tables::CONSTRAINT_LINKS],
    pub cube_masks: [u64; tables::CONSTRAINTS],
    pub trail: Trail,
    pub statuses: [u8; tables::CODES],
    pub aside: [u16; ASIDE],
    pub places: [u16; tables::HIGHEST_BY_NUMBER],
    pub kinds: [u16; tables::HIGHEST_BY_NUMBER],
    pub values: [u8; tables::HIGHEST_BY_NUMBER],
}

impl Workspace {
    // A workspace of a program's own, as a constant: made by a call it would stand on the stack twice. Any content would do.
    pub const ZEROS: Workspace = Workspace {
        matrix: Matrix {
            rows: [0; tables::CLAUSE_ROWS],
            sets: [0; tables::CLAUSE_SETS],
            quantifiers: [0; tables::CODES],
        },
        clause_cells: [0; tables::CONSTRAINT_CODES],
        clause_links: [0; tables::CONSTRAINT_LINKS],
        clause_masks: [0; tables::CONSTRAINTS],
        cube_cells: [0; tables::CONSTRAINT_CODES],
        cube_links: [0; tables::CONSTRAINT_LINKS],
        cube_masks: [0; tables::CONSTRAINTS],
        trail: Trail {
            sat: [0; tables::SATISFIED],
            marks: [0; tables::HIGHEST_BY_NUMBER],
            cube: [0; tables::CODES_AREA],
            resolvent: [0; tables::CODES_AREA],
        },
        statuses: [0; tables::CODES],
        aside: [0; ASIDE],
        places: [0; tables::HIGHEST_BY_NUMBER],
        kinds: [0; tables::HIGHEST_BY_NUMBER],
        values: [0; tables::HIGHEST_BY_NUMBER],
    };
}
