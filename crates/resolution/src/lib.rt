// Resolution on codes, and its dual of two cubes: two constraints united without a variable, which only their last codes can be of, and reduced; and the
// result stored.
#![tactic(auto)]

ghost use Rattle.std.specs.Prelude.{◌≡◌, true, suc, ◌^◌, ◌≤◌, ◌<◌, length, take, eqb};
ghost use Rattle.qbf.specs.Formula.{paper, highest, Prefix};
ghost use Rattle.qbf.specs.Learning.{Constraint, push, without, resolvent, last_place};
ghost use Rattle.qbf.specs.Calls.{in_order};
ghost use Rattle.tables.specs.Codes.{codes, last_code, Quantified};
ghost use Rattle.tables.specs.Shelves.{code_count};
ghost use Rattle.shelf.specs.Standing.{Room, rows, newest};
ghost use Rattle.resolution.specs.Stored.{Stored};

use coding::code::place_of;
use coding::list::{last_code, reduced_len};
use coding::union::unite;
use search_entry::{Bounds, Source};
use shelf::Shelf;

// Whether the last of the codes is of the place after `at`; then there is one.
pub fn ends_next<'a>(row: &'a [u16], at: usize) -> bool
    ensures { (result ≡ true → 1 ≤ length row.now)
        × ((D : Prefix) (e : Constraint)
        → row.now ≡ codes D e
        → result ≡ eqb (last_place D e) (suc at)) }
{
    place_of(last_code(row)) == at.saturating_add(1)
}

// The codes without the place after `at`, which can only be the last.
fn trimmed<'a>(row: &'a [u16], at: usize) -> &'a [u16]
    ensures { (length result.now ≤ length row.now)
        × ((D : Prefix) (e : Constraint)
        → row.now ≡ codes D e
        → in_order D 0 e ≡ true
        → last_place D e ≤ suc at
        → result.now ≡ codes D (without D (suc at) e)) }
{
    if ends_next(row, at) {
        return &row[..row.len() - 1];
    }
    row
}

// The resolvent of two rows, without the place after `at`, in the first cells of the area; how many they are. The area is lent: a level of the search has
// no table of its own, and nothing is cleared for a resolvent.
// stays (no plainer): `length [u16] ≤ highest.numbers` is what its one caller, `join`, has of `Aside` and of the answer's part; a struct of each row would be made there and taken apart here
pub fn resolve<'a>(
    area: &mut [u16; tables::CODES_AREA],
    off: &'a [u16],
    on: &'a [u16],
    at: usize,
    quantifiers: &'a [u8; tables::CODES],
    cube: bool,
) -> usize
    requires { (length off.now ≤ highest.numbers) × (length on.now ≤ highest.numbers) }
    ensures { (result ≤ length area.new)
        × ((D : Prefix) (e f : Constraint)
        → Quantified D quantifiers.now
        → off.now ≡ codes D e
        → on.now ≡ codes D f
        → in_order D 0 e ≡ true
        → in_order D 0 f ≡ true
        → last_place D e ≤ suc at
        → last_place D f ≤ suc at
        → take result area.new ≡ codes D (resolvent D (suc at) cube e f)) }
{
    let united = unite(area, trimmed(off, at), trimmed(on, at));
    reduced_len(&area[..united], quantifiers, cube)
}

// A row is stored: its bounds. A constraint has at most one literal of a variable, so that there is always room for its codes, and its last code has
// a link; the tests keep that from being asked of every caller.
// stays (no plainer): `Room Shelf` is used up, a number by each row: a shelf that kept it could not be written to
pub fn store<'a>(learned: &mut Shelf, row: &'a [u16]) -> Bounds
    requires { Room learned.old }
    ensures { (newest learned.new ≤ suc (newest learned.old))
        × (length row.now ≤ highest.numbers
        → last_code row.now < code_count
        → Stored result row.now learned.new.cells.now
        × (rows learned.new ≡ push paper.constraints row.now (rows learned.old))
        × (newest learned.new ≡ suc (newest learned.old))) }
{
    let last = last_code(row) as usize;
    if tables::HIGHEST_NUMBERS < row.len() || tables::CODES <= last {
        return Bounds {
            source: Source::Area,
            start: 0,
            len: 0,
        };
    }
    let slot = learned.push(row);
    Bounds {
        source: Source::Learned,
        start: slot * (tables::HIGHEST_NUMBERS + 1) + 1,
        len: row.len(),
    }
}
