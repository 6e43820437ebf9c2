// The tables of a workspace as they are lent on.
use search_entry::workspace::Workspace;
use searching::run::Scratch;

// By number the place, the quantifier and the value; and what a search derives and changes.
#[derive(Drop)]
pub struct Lent<'a> {
    pub places: &'a mut [u16; tables::HIGHEST_BY_NUMBER],
    pub kinds: &'a mut [u16; tables::HIGHEST_BY_NUMBER],
    pub values: &'a mut [u8; tables::HIGHEST_BY_NUMBER],
    pub scratch: Scratch<'a>,
}

impl<'a> Lent<'a> {
    pub fn of(work: &'a mut Workspace) -> Lent<'a> {
        Lent {
            places: &mut work.places,
            kinds: &mut work.kinds,
            values: &mut work.values,
            scratch: Scratch {
                matrix: &mut work.matrix,
                clause_cells: &mut work.clause_cells,
                clause_links: &mut work.clause_links,
                clause_masks: &mut work.clause_masks,
                cube_cells: &mut work.cube_cells,
                cube_links: &mut work.cube_links,
                cube_masks: &mut work.cube_masks,
                trail: &mut work.trail,
                statuses: &mut work.statuses,
                aside: &mut work.aside,
            },
        }
    }
}
