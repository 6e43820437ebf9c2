// "a 65th of a kind displaces the oldest": the newest row takes the slot after the one before it, where the oldest stood if all are taken.
ghost use Rattle.std.specs.Prelude.{◌≡◌, suc, ◌+◌, ◌*◌, ◌%◌, ◌^◌, ◌≤◌, ◌<◌, length, get_or, take, drop, set};
ghost use Rattle.std.proofs.Math.Seq.{paste};
ghost use Rattle.qbf.specs.Formula.{paper, highest, Prefix};
ghost use Rattle.qbf.specs.Learning.{push};
ghost use Rattle.tables.specs.Views.{Places};
ghost use Rattle.tables.specs.Codes.{codes, last_code};
ghost use Rattle.tables.specs.Shelves.{shelf_rows, newest_of, code_count};
ghost use Rattle.shelf.specs.Linked.{Agree};
ghost use Rattle.shelf.specs.Masks.{Masked};
ghost use Rattle.shelf.specs.Marked.{PartCleared, Marked};
ghost use Rattle.shelf.specs.Coded.{RowCoded};
ghost use Rattle.shelf.specs.Standing.{rows, newest, Room};

use crate::Shelf;
use crate::mask::mask_of;
use coding::code::encode;
use coding::list::last_code;

// The slot that the row after the newest takes.
// stays (no plainer): `0 < usize` is of the number of slots, a constant of the two methods of `Shelf`, whose one call each hands it through: a type of it would be made there and opened here
fn next_slot(newest: u64, slots: usize) -> usize
    requires { 0 < slots }
    ensures { (result ≡ newest % slots) × (result < slots) }
{
    (newest % slots as u64) as usize
}

// A row's length, then its codes.
fn write_row<'a>(cells: &mut [u16], at: usize, row: &'a [u16])
    requires { (at + suc (length row.now) ≤ length cells.old) × (length row.now < 65536) }
    ensures { cells.new
        ≡ paste (set cells.old at (length row.now)) (suc at) row.now (length row.now) }
{
    cells[at] = row.len() as u16;
    cells[at + 1..at + 1 + row.len()].copy_from_slice(row);
}

// .. of the codes of literals, which are made where they go.
fn encode_row<'a>(cells: &mut [u16], at: usize, literals: &'a [i16], places: &'a [u16])
    requires { (at + suc (length literals.now) ≤ length cells.old) × (length literals.now < 65536) }
    ensures { RowCoded literals.now places.now at cells.old cells.new }
{
    let end = at + 1 + literals.len();
    cells[at] = literals.len() as u16;
    encode(&mut cells[at + 1..end], literals, places);
}

// stays (no plainer): `u16 < code_count` is of a number that is made of a place or read from a row's cell, and is an index of a table: a type of it would be made at each of those, and opened at each index
// The cells of a part are 0.
fn clear_part(links: &mut [u64], from: usize, to: usize)
    requires { (from ≤ to) × (to ≤ length links.old) }
    ensures { PartCleared from to links.old links.new }
{
    links[from..to].fill(0);
}

// The numbers by last code stand up to a code: those from the mark on are cleared, and the mark is behind it.
// stays (no plainer): `u16 < code_count`, as in `write_links`
fn mark_up_to(links: &mut [u64], code: u16)
    requires { (suc (suc code_count) ≤ length links.old) × (code < code_count) }
    ensures { Marked code links.old links.new }
{
    let marked = links[tables::CODES + 1];
    if marked <= code as u64 {
        clear_part(links, marked as usize, code as usize + 1);
        links[tables::CODES + 1] = code as u64 + 1;
    }
}

// The new row is the newest of all and of those that end in its last code; the one that was is the next older.
fn write_links(links: &mut [u64], code: u16, slot: usize, newest: u64)
    requires { (suc (suc code_count) + slot < length links.old) × (slot < 65536) × (newest < 2 ^ 63) × (code < code_count) }
    ensures { links.new
        ≡ set
        (set (set links.old (suc (suc code_count) + slot) (get_or links.old code 0)) code (suc newest))
        code_count
        (suc newest) }
{
    links[tables::CODES + 2 + slot] = links[code as usize];
    links[code as usize] = newest + 1;
    links[tables::CODES] = newest + 1;
}

// One row more, in lent tables of any width and for any number of rows. It takes the slot of its number, which is that of the oldest row where all slots
// are taken, and which is handed back.
// stays (no plainer): its one caller, `Shelf::push`, would make a struct of the three tables, the width and the slots for this one call; and unlike the facts that `Clauses` and `Left` keep,
// which hold after each cell that they write, `Agree` holds only once all are written
pub fn push(
    cells: &mut [u16],
    links: &mut [u64],
    masks: &mut [u64],
    stride: usize,
    slots: usize,
    row: &[u16],
) -> usize
    requires { Agree stride slots cells.old links.old
        × Masked stride slots cells.old masks.old
        × (0 < slots)
        × (slots * suc stride < 65536)
        × (length row.now ≤ stride)
        × (last_code row.now < code_count)
        × (newest_of links.old < 2 ^ 63) }
    ensures { Agree stride slots cells.new links.new
        × Masked stride slots cells.new masks.new
        × (shelf_rows stride slots cells.new links.new
        ≡ push slots row.now (shelf_rows stride slots cells.old links.old))
        × (newest_of links.new ≡ suc (newest_of links.old))
        × (result < slots)
        × (take (length row.now) (drop (suc (result * suc stride)) cells.new) ≡ row.now) }
{
    let newest = links[tables::CODES];
    let slot = next_slot(newest, slots);
    let code = last_code(row);
    write_row(cells, slot * (stride + 1), row);
    masks[slot] = mask_of(row);
    mark_up_to(links, code);
    write_links(links, code, slot, newest);
    slot
}

// .. of literals.
// stays (no plainer): its one caller, `Shelf::push_literals`, would make a struct of the three tables, the width and the slots for this one call, as above
fn push_literals<'a>(
    cells: &mut [u16],
    links: &mut [u64],
    masks: &mut [u64],
    stride: usize,
    slots: usize,
    literals: &'a [i16],
    places: &'a [u16],
)
    requires { Agree stride slots cells.old links.old
        × Masked stride slots cells.old masks.old
        × (0 < slots)
        × (slots * suc stride < 65536)
        × (length literals.now ≤ stride)
        × (newest_of links.old < 2 ^ 63) }
    ensures { Agree stride slots cells.new links.new
        × Masked stride slots cells.new masks.new
        × (newest_of links.new ≡ suc (newest_of links.old))
        × ((D : Prefix)
        → Places D places.now
        → length D ≤ highest.numbers
        → shelf_rows stride slots cells.new links.new
        ≡ push slots (codes D literals.now) (shelf_rows stride slots cells.old links.old)) }
{
    let newest = links[tables::CODES];
    let slot = next_slot(newest, slots);
    let at = slot * (stride + 1);
    encode_row(cells, at, literals, places);
    let row = &cells[at + 1..at + 1 + literals.len()];
    let code = last_code(row);
    masks[slot] = mask_of(row);
    mark_up_to(links, code);
    write_links(links, code, slot, newest);
}

impl Shelf<'_> {
    // .. of literals.
    // stays (no plainer): `Room self` is used up, a number by each row: a shelf that kept it could not be written to
    pub fn push_literals<'a>(&mut self, literals: &'a [i16], places: &'a [u16])
        requires { (length literals.now ≤ highest.numbers) × Room self.old }
        ensures { (newest self.new ≡ suc (newest self.old))
            × ((D : Prefix)
            → Places D places.now
            → length D ≤ highest.numbers
            → rows self.new ≡ push paper.constraints (codes D literals.now) (rows self.old)) }
    {
        let (stride, slots) = (tables::HIGHEST_NUMBERS, tables::CONSTRAINTS);
        let cells = &mut *self.cells;
        let links = &mut *self.links;
        let masks = &mut *self.masks;
        push_literals(cells, links, masks, stride, slots, literals, places);
    }

    // One row more, in the shelf's tables.
    // stays (no plainer): `length [u16] ≤ highest.numbers` is what its two callers have just tested (`resolution::store`) or cut the row by (`load_row`): a struct of the row would be made there and taken apart here
    // stays (no plainer): `Room self` is used up, a number by each row: a shelf that kept it could not be written to
    pub fn push<'a>(&mut self, row: &'a [u16]) -> usize
        requires { (length row.now ≤ highest.numbers) × (last_code row.now < code_count) × Room self.old }
        ensures { (rows self.new ≡ push paper.constraints row.now (rows self.old))
            × (newest self.new ≡ suc (newest self.old))
            × (result < paper.constraints)
            × (take (length row.now) (drop (suc (result * suc highest.numbers)) self.new.cells.now) ≡ row.now) }
    {
        let (stride, slots) = (tables::HIGHEST_NUMBERS, tables::CONSTRAINTS);
        let cells = &mut *self.cells;
        let links = &mut *self.links;
        let masks = &mut *self.masks;
        push(cells, links, masks, stride, slots, row)
    }
}
