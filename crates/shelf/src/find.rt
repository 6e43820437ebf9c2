// The oldest row that ends in a code and whose codes all have one status. The rows with that last code are linked from the newest to the
// oldest; the last one that matches on the way is the oldest.
ghost use Rattle.std.specs.Prelude.{◌≡◌, suc, ◌-◌, ◌*◌, ◌%◌, ◌≤◌, ◌<◌, length};
ghost use Rattle.qbf.specs.Formula.{paper, highest};
ghost use Rattle.tables.specs.Shelves.{code_count, head_of, shelf_rows, row_at, first_match};
ghost use Rattle.tables.specs.Codes.{all_are};
ghost use Rattle.shelf.specs.Masks.{Noted};
ghost use Rattle.shelf.specs.Standing.{rows, newest, SlotIn, Found, FoundIn};

use crate::row::all_are;
use crate::{LentShelf, Shelf};

// The number before that of the oldest row that stands.
fn before_oldest(newest: u64, slots: usize) -> u64
    ensures { result ≡ newest - slots }
{
    newest.saturating_sub(slots as u64)
}

impl<'a> LentShelf<'a> {
    // The number of the newest row that ends in a code; 0 from the mark on, where the links have any content.
    // stays (no plainer): `u16 < code_count`, as in `find`
    fn head(self, code: u16) -> u64
        requires { code < code_count }
        ensures { result ≡ head_of self.entry.links.now code }
    {
        let known = (code as u64) < self.links[tables::CODES + 1];
        if known { self.links[code as usize] } else { 0 }
    }

    // The slot of a row's number.
    fn slot_of(self, number: u64) -> usize
        requires { 0 < number }
        ensures { (result ≡ (number - 1) % self.entry.slots) × (result < self.entry.slots) }
    {
        ((number - 1) % self.slots as u64) as usize
    }

    // The row in a slot.
    pub fn row_in(self, slot: usize) -> &'a [u16]
        requires { slot < self.slots }
        ensures { (result.now ≡ row_at self.entry.stride self.entry.cells.now slot) × (length result.now ≤ self.entry.stride) }
    {
        let from = slot * (self.stride + 1);
        let len = (self.cells[from] as usize).min(self.stride);
        &self.cells[from + 1..from + 1 + len]
    }

    // Whether the codes of the row in a slot all have one status: where its word does not lie within that of the codes that have it, not all do.
    fn hits(self, slot: usize, statuses: &[u8; tables::CODES], want: u8, word: u64) -> bool
        requires { slot < self.slots }
        ensures { Noted statuses.now want word → result ≡ all_are statuses.now want (row_at self.entry.stride self.entry.cells.now slot) }
    {
        let mask = self.masks[slot];
        mask & word == mask && all_are(self.row_in(slot), statuses, want)
    }

    // stays (no plainer): `u16 < code_count` is of a number that is made of a place or read from a row's cell, and is an index of a table: a type of it would be made at each of those, and opened at each index
    // The slot of the oldest match, by the word of the codes that have the status.
    pub fn find(
        self,
        code: u16,
        statuses: &[u8; tables::CODES],
        want: u8,
        word: u64,
    ) -> Option<usize>
        requires { code < code_count }
        ensures slot { SlotIn self.entry.slots result }
        ensures found { Noted statuses.now want word
            → FoundIn
            self.entry.stride
            self.entry.cells.now
            result
            (first_match code statuses.now want (shelf_rows self.entry.stride self.entry.slots self.entry.cells.now self.entry.links.now)) }
    {
        let base = before_oldest(self.links[tables::CODES], self.slots);
        let mut found = None;
        let mut number = self.head(code);
        // stays (no plainer): the rows are those that the links lead to, and no list's
        while base < number {
            let slot = self.slot_of(number);
            let hit = self.hits(slot, statuses, want, word);
            found = if hit { Some(slot) } else { found };
            number = self.links[tables::CODES + 2 + slot];
        }
        found
    }
}

impl Shelf<'_> {
    // Its tables, to be read.
    fn lent<'a>(&'a self) -> LentShelf<'a>
        ensures { (result.cells.now ≡ self.now.cells.now)
            × (result.links.now ≡ self.now.links.now)
            × (result.masks.now ≡ self.now.masks.now)
            × (result.stride ≡ highest.numbers)
            × (result.slots ≡ paper.constraints) }
    {
        LentShelf {
            cells: &*self.cells,
            links: &*self.links,
            masks: &*self.masks,
            stride: tables::HIGHEST_NUMBERS,
            slots: tables::CONSTRAINTS,
        }
    }

    // The number of the newest row.
    pub fn newest(&self) -> u64
        ensures { result ≡ newest self.now }
    {
        let links = &*self.links;
        links[tables::CODES]
    }

    // The row in a slot.
    pub fn row_in<'a>(&'a self, slot: usize) -> &'a [u16]
        requires { slot < paper.constraints }
        ensures { (result.now ≡ row_at highest.numbers self.now.cells.now slot) × (length result.now ≤ highest.numbers) }
    {
        self.lent().row_in(slot)
    }

    // The slot of the oldest match.
    pub fn find<'a>(
        &'a self,
        code: u16,
        statuses: &'a [u8; tables::CODES],
        want: u8,
        word: u64,
    ) -> Option<usize>
        requires { code < code_count }
        ensures slot { SlotIn paper.constraints result }
        ensures found { Noted statuses.now want word
            → Found self.now result (first_match code statuses.now want (rows self.now)) }
    {
        self.lent().find(code, statuses, want, word)
    }
}
