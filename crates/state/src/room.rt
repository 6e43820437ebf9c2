// Whether lent tables have room for what the limits allow.
ghost use Rattle.std.specs.Prelude.{◌≡◌, ◌*◌, length, leb};
ghost use Rattle.state.specs.Reading.{prefix_roomy, rows_roomy, own, roomy};
ghost use Rattle.state.specs.Lent.{parts_state};

use crate::parts::{Limits, Parts, Rows};
use crate::prefix::Variables;

// The product may be too large for a number.
fn holds(len: usize, rows: usize, width: usize) -> bool
    ensures { result ≡ leb (rows * width) len }
{
    if width == 0 {
        return true;
    }
    rows <= len / width
}

fn prefix_room(variables: Variables<'_>, most: usize) -> bool
    ensures { result
        ≡ prefix_roomy
        most
        variables.entry.numbers.now
        variables.entry.levels.now
        variables.entry.kinds.now }
{
    if variables.numbers.len() <= most {
        return false;
    }
    if variables.levels.len() <= most {
        return false;
    }
    most < variables.kinds.len()
}

// There may be `most` rows.
fn rows_room(rows: Rows<'_>, most: usize, width: usize) -> bool
    ensures { result ≡ rows_roomy width most rows.entry.flat.now rows.entry.sizes.now }
{
    if holds(rows.flat.len(), most, width) {
        return most < rows.sizes.len();
    }
    false
}

pub fn has_room(parts: Parts<'_>, limits: Limits) -> bool
    ensures { result ≡ roomy (own limits.numbers limits.clauses) (parts_state parts.entry) }
{
    if !prefix_room(parts.variables, limits.numbers) {
        return false;
    }
    if !rows_room(parts.clauses, limits.clauses, tables::LITERALS) {
        return false;
    }
    if !rows_room(parts.learned_clauses, tables::CONSTRAINTS, limits.numbers) {
        return false;
    }
    if !rows_room(parts.learned_cubes, tables::CONSTRAINTS, limits.numbers) {
        return false;
    }
    tables::LEARNED_CLAUSE_SIZES <= parts.learned_clauses.sizes.len()
}
