// A shelf without a row, in tables whose content before is free: nothing is cleared but the newest row's number, the mark and
// the words of the slots.
ghost use Rattle.std.specs.Prelude.{◌≡◌, [], ◌*◌, length, get_or, suc};
ghost use Rattle.tables.specs.Shelves.{code_count, newest_of, mark_of};
ghost use Rattle.shelf.specs.Standing.{rows, newest};

use crate::Shelf;

// The number of the newest row is 0, and no code has a newest row. What stands in the other cells is written before it is read.
fn clear_marks(links: &mut [u64; tables::CONSTRAINT_LINKS])
    ensures { (newest_of links.new ≡ 0) × (mark_of links.new ≡ 0) }
{
    links[tables::CODES] = 0;
    links[tables::CODES + 1] = 0;
}

impl<'a> Shelf<'a> {
    // No row, in lent tables.
    // stays (no plainer): the links are a table of their own, which measures nothing
    pub fn empty(
        cells: &'a mut [u16; tables::CONSTRAINT_CODES],
        links: &'a mut [u64; tables::CONSTRAINT_LINKS],
        masks: &'a mut [u64; tables::CONSTRAINTS],
    ) -> Shelf<'a>
        ensures { (newest result ≡ 0) × (rows result ≡ []) }
    {
        clear_marks(&mut *links);
        *masks = [0; tables::CONSTRAINTS];
        Shelf {
            cells,
            links,
            masks,
        }
    }
}
