// A variable is declared at the end of the prefix of a state in two lent tables, under the state's own limits. Paper 01, "Refusals from the input", 3 and 4;
// paper 02, wish 8: "Declaring a 41st flag is 33, checked after 4".
#![tactic(auto)]

ghost use Rattle.refusal.specs.Refusal.{fault_in};
ghost use Rattle.state_parts.specs.Layout.{limits_in};
ghost use Rattle.declaring.specs.Declaring.{DeclarableAt, DeclaredAt, NextFor};

mod fault;

use literal::{Level, Number, Place};
use refusal::Refusal;
use state::declare::next_level;
use state_parts::layout::NUMBERS_AT;
use state_parts::limits::Layout;

// The place that follows those that are declared, and the level that the quantifier gives there.
#[derive(Clone, Copy)]
pub struct Next {
    pub place: Place,
    pub level: Level,
}

// stays (form): `u16 ≤ quantifier_code forall` is of the number that is written into the table of kinds, as a line has it
fn next_of(layout: Layout, cells: &[u16], number: Number, kind: u16) -> Result<Next, Refusal>
    requires { DeclarableAt (limits_in layout) cells.now kind }
    ensures { NextFor (limits_in layout) cells.now number.0 kind result }
{
    let variables = layout.parts(cells, &[]).variables;
    fault::fault_of(variables, layout.numbers, number, kind)?;
    let count = state::cells::count(variables.numbers);
    let level = next_level(variables.levels, variables.kinds, Place(count), kind);
    Ok(Next {
        place: Place(count + 1),
        level,
    })
}

// The variable is declared; or it is refused, and the cells are as they were. Of a state's two tables that of the literals is not asked for.
pub fn declare(layout: Layout, cells: &mut [u16], number: Number, kind: u16) -> Result<(), Refusal>
    requires { DeclarableAt (limits_in layout) cells.old kind }
    ensures { DeclaredAt (limits_in layout) cells.old number.0 kind (fault_in result) cells.new }
{
    let next = next_of(layout, cells, number, kind)?;
    let last = next.place.0;
    let level = next.level.0;
    let levels_at = layout.levels_at();
    let kinds_at = layout.kinds_at();
    cells[NUMBERS_AT] = last as u16;
    cells[NUMBERS_AT + last] = number.0 as u16;
    cells[levels_at + last] = level as u16;
    cells[kinds_at + level] = kind;
    Ok(())
}
