// The calls that ask for no search, open to outsiders, on a state in two lent tables under its own limits.
#![tactic(auto)]

ghost use Rattle.qbf.specs.Calls.{forget};
ghost use Rattle.rule_calls.specs.ServesAt.{ServesAt, change_said};
ghost use Rattle.rule_calls.specs.StaysAt.{forget_writes, StaysAt};

mod adding; // a rule
mod forms; // an exactly-one form
mod withdrawing; // a withdrawal

pub use adding::rule;
pub use forms::one;
use refusal::Refusal;
pub use withdrawing::withdraw;

// "Forget empties the store."
pub fn forget(cells: &mut [u16], literals: &[i16]) -> Result<(), Refusal>
    ensures serves { ServesAt
        cells.old
        literals.now
        forget
        (change_said result)
        cells.new
        literals.now }
    ensures frame { StaysAt forget_writes cells.old literals.now cells.new literals.now }
{
    let mut places = [0u16; tables::HIGHEST_BY_NUMBER];
    let mut by_number = [0u16; tables::HIGHEST_BY_NUMBER];
    let Ok(layout) = state_parts::check(cells, literals, &mut places, &mut by_number) else {
        return Err(Refusal::Malformed);
    };
    let clauses_at = layout.learned_clause_sizes_at();
    let cubes_at = layout.learned_cube_sizes_at();
    cells[clauses_at] = 0;
    cells[cubes_at] = 0;
    Ok(())
}
