// The check of a state whose tables are lent as slices, under its own limits for numbers and clauses.
ghost use Rattle.std.specs.Prelude.{◌≡◌, suc, length};
ghost use Rattle.qbf.specs.Calls.{limits_are_ok};
ghost use Rattle.state.specs.Reading.{own};
ghost use Rattle.state.specs.Derived.{CheckedUnder};
ghost use Rattle.state.specs.Lent.{parts_state};

use crate::kinds::few_free;
use crate::prefix::{Variables, read_prefix};
use crate::room::has_room;
use crate::rows::{Shown, all_ok};

// How high a number may be, and how many clauses there may be.
#[derive(Clone, Copy)]
pub struct Limits {
    pub numbers: usize,
    pub clauses: usize,
}

// "a state with higher ones is 22"
fn limits_ok(limits: Limits) -> bool
    ensures { result ≡ limits_are_ok (own limits.numbers limits.clauses) }
{
    if limits.numbers > tables::HIGHEST_NUMBERS {
        return false;
    }
    limits.clauses <= tables::HIGHEST_CLAUSES
}

// A flat table: the literals of its rows, and the count of the rows with the length of each.
// stays (no plainer): `lent_rows::LentRows` keeps it that its rows lie within the table, which the check of these has still to find
#[derive(Clone, Copy)]
pub struct Rows<'a> {
    pub flat: &'a [i16],
    pub sizes: &'a [u16],
}

// The tables of a state, each a part of a longer one.
#[derive(Clone, Copy)]
pub struct Parts<'a> {
    pub variables: Variables<'a>,
    pub clauses: Rows<'a>,
    // with the record of each behind the sizes
    pub learned_clauses: Rows<'a>,
    pub learned_cubes: Rows<'a>,
}

impl<'a> Parts<'a> {
    // "22 the state is malformed": first limits that are too high, then a table that is too short. The prefix that is read on the way is left in the tables by
    // number, which have a cell for each number up to the limit, and one more; their content before is free.
    pub fn check(self, limits: Limits, places: &mut [u16], by_number: &mut [u16]) -> bool
        requires { (length places.old ≡ suc limits.numbers) × (length by_number.old ≡ suc limits.numbers) }
        ensures { CheckedUnder
            (own limits.numbers limits.clauses)
            (parts_state self.entry)
            result
            places.new
            by_number.new }
    {
        if !limits_ok(limits) {
            return false;
        }
        if !has_room(self, limits) {
            return false;
        }
        if !read_prefix(self.variables, limits.numbers, places, by_number) {
            return false;
        }
        if !few_free(self.variables) {
            return false;
        }
        let shown = Shown {
            places,
            kinds: by_number,
        };
        all_ok(shown, self, limits)
    }
}
