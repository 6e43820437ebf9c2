// The call withdraw, on a state in two lent tables.
ghost use Rattle.qbf.specs.Calls.{withdraw};
ghost use Rattle.state_parts.specs.Layout.{limits_in};
ghost use Rattle.rule_calls.specs.ServesAt.{ServesAt, change_said};
ghost use Rattle.rule_calls.specs.StaysAt.{withdraw_writes, StaysAt};
ghost use Rattle.rule_calls.specs.WithdrawnAt.{Learned, WithdrawnWithin};

use refusal::Refusal;
use state_parts::limits::Layout;
use withdrawal::leave;

// That many clauses remain; "Passes remain valid and are kept."
fn take_last(layout: Layout, cells: &mut [u16], literals: &mut [i16], remain: u16)
    requires { Learned (limits_in layout) cells.old literals.old }
    ensures { WithdrawnWithin
        (limits_in layout)
        cells.old
        literals.old
        remain
        cells.new
        literals.new }
{
    let from = layout.clause_cells();
    let end = layout.learned_cubes_at();
    let sizes_at = layout.learned_clause_sizes_at();
    let sizes_end = layout.learned_cube_sizes_at();
    let count_at = layout.clause_sizes_at();
    leave(
        layout.numbers,
        &mut literals[from..end],
        &mut cells[sizes_at..sizes_end],
        remain,
    );
    cells[count_at] = remain;
}

// "Add a call that withdraws the rule added last."
pub fn withdraw(cells: &mut [u16], literals: &mut [i16]) -> Result<(), Refusal>
    ensures serves { ServesAt
        cells.old
        literals.old
        withdraw
        (change_said result)
        cells.new
        literals.new }
    ensures frame { StaysAt withdraw_writes cells.old literals.old cells.new literals.new }
{
    let mut places = [0u16; tables::HIGHEST_BY_NUMBER];
    let mut by_number = [0u16; tables::HIGHEST_BY_NUMBER];
    let Ok(layout) = state_parts::check(cells, literals, &mut places, &mut by_number) else {
        return Err(Refusal::Malformed);
    };
    let standing = literal::cell_at(cells, layout.clause_sizes_at());
    if standing == 0 {
        return Err(Refusal::NoRule);
    }
    take_last(layout, cells, literals, standing - 1);
    Ok(())
}
