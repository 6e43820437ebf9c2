// The variables of the quantifier lines, declared after the flags.
ghost use Rattle.std.specs.Prelude.{List, ℕ, ◌++◌};
ghost use Rattle.qbf.specs.Formula.{Prefix};
ghost use Rattle.state_parts.specs.Layout.{limits_in};
ghost use Rattle.qdimacs_opening.specs.Built.{Built, GroupsReady};

use declaring::declare;
use literal::{Number, Place};
use state::cells::{count, entry};
use state::kinds::kind_at;
use state::prefix::Variables;
use state_parts::limits::Layout;

pub fn declare_groups(layout: Layout, cells: &mut [u16], more: Variables<'_>)
    requires { (start : List ℕ) × (F : Prefix) × (D : Prefix) × GroupsReady
        (limits_in layout)
        start
        F
        D
        cells.old
        more.numbers.now
        more.levels.now
        more.kinds.now }
    ensures { (start : List ℕ) (F D : Prefix) →
        GroupsReady
        (limits_in layout)
        start
        F
        D
        cells.old
        more.entry.numbers.now
        more.entry.levels.now
        more.entry.kinds.now →
        Built (limits_in layout) start (F ++ D) cells.new }
{
    // stays (no plainer): over a zip of the numbers and the levels the kinds are indexed by each level still, which `kind_at` does for a place.
    for i in 0..count(more.numbers) {
        let kind = kind_at(more.levels, more.kinds, Place(i + 1));
        let number = Number(entry(more.numbers, i));
        let _ = declare(layout, cells, number, kind);
    }
}
