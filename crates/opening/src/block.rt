// The variables of a block, declared one after another in the cells of a state.
ghost use Rattle.state_parts.specs.Layout.{limits_in};
ghost use Rattle.opening.specs.Blocks.{GrowableAt, GrownAt};

use declaring::declare;
use literal::number_of;
use refusal::Refusal;
use state_parts::limits::Layout;

// The first fault from the left, or all are declared.
// stays (form): the kind is the number that `declare` writes into the table of kinds, as the line has it.
pub fn declare_all(
    layout: Layout,
    cells: &mut [u16],
    lits: &[i16],
    kind: u16,
) -> Result<(), Refusal>
    requires { GrowableAt (limits_in layout) cells.old kind }
    ensures { GrownAt (limits_in layout) cells.old lits.now kind result cells.new }
{
    for lit in lits {
        declare(layout, cells, number_of(*lit), kind)?;
    }
    Ok(())
}
