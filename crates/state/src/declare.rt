// The level of one variable more, at the end of the prefix.
ghost use Rattle.std.specs.Prelude.{◌≡◌};
ghost use Rattle.state.specs.Declare.{level_for, next_level, Growing};

use literal::{Level, Place};

// 0 where there is no place.
// stays (no plainer): the definitions' level before the first place is 0 too, as a flag's is
fn level_at(levels: &[u16], place: Place) -> u16
    ensures { result ≡ level_for levels.now place.0 }
{
    let p = place.0;
    if p == 0 {
        return 0;
    }
    literal::cell_at(levels, p)
}

// The level that a quantifier gives after the places that are declared.
pub fn next_level(levels: &[u16], kinds: &[u16], last: Place, kind: u16) -> Level
    requires { Growing levels.now kinds.now last.0 kind }
    ensures { result.0 ≡ next_level levels.now kinds.now last.0 kind }
{
    let level = level_at(levels, last);
    let beside = crate::kinds::kind_at(levels, kinds, last);
    crate::levels::level_beside(level, beside, kind)
}
