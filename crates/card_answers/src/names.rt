// The number of each place's variable, and how many variables are free: they come first.
ghost use Rattle.std.specs.Prelude.{◌≡◌, true, List, ℤ};
ghost use Rattle.std.proofs.Math.Option.{some};
ghost use Rattle.qbf.specs.Calls.{State as Read, well_formed};
ghost use Rattle.state_parts.specs.Parts.{read_at};
ghost use Rattle.card_answers.specs.Names.{NamesOf};

use state::kinds::free_count;
use state::prefix::Variables;
use state_parts::limits::Layout;

// Cell 0 of the numbers is their count.
// stays (no plainer): what is known of the two is said of a prefix, which the answer does not have: a ghost field on them could not name it
#[derive(Clone, Copy)]
pub struct Names<'a> {
    pub numbers: &'a [u16],
    pub free: usize,
}

// Of a state in two tables, by the one that its limits and its prefix stand in. Of one that is malformed nothing is said: no answer names its variables.
pub fn names_at(cells: &[u16]) -> Names<'_>
    ensures { (literals : List ℤ) (y : Read) → read_at cells.now literals ≡ some y → well_formed y ≡ true → NamesOf y.formula.prefix result.numbers.now result.free }
{
    let Some(layout) = Layout::read(cells) else {
        return Names {
            numbers: &[],
            free: 0,
        };
    };
    let parts = layout.parts(cells, &[]);
    Names {
        numbers: parts.variables.numbers,
        free: free_count(parts.variables),
    }
}
