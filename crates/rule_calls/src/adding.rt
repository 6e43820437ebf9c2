// The call rule, on a state in two lent tables.
ghost use Rattle.std.specs.Prelude.{[], ◌∷◌};
ghost use Rattle.qbf.specs.Calls.{rule};
ghost use Rattle.state_parts.specs.Layout.{limits_in};
ghost use Rattle.rule_calls.specs.ServesAt.{ServesAt, change_said};
ghost use Rattle.rule_calls.specs.StaysAt.{rule_writes, StaysAt};
ghost use Rattle.rule_calls.specs.AddedAt.{Room, AddedWithin};

use refusal::Refusal;
use rule_faults::refusals::judge_rule;
use rule_rows::clauses::add_rule;
use rule_rows::standing::Rule;
use state_parts::limits::Layout;

// "if accepted, all passes go and bars remain"
fn accept(layout: Layout, cells: &mut [u16], literals: &mut [i16], rule: Rule<'_>, places: &[u16])
    requires { Room (limits_in layout) cells.old literals.old 1 }
    ensures { AddedWithin
        (limits_in layout)
        cells.old
        literals.old
        (rule.entry.lits.now ∷ [])
        places.now
        cells.new
        literals.new }
{
    let rows_end = layout.clause_cells();
    let sizes_at = layout.clause_sizes_at();
    let sizes_end = layout.learned_clause_sizes_at();
    let cubes_at = layout.learned_cube_sizes_at();
    add_rule(
        layout.clauses,
        &mut literals[..rows_end],
        &mut cells[sizes_at..sizes_end],
        rule,
        places,
    );
    cells[cubes_at] = 0;
}

// "Rule adds a rule; if accepted, all passes go and bars remain."
pub fn rule(cells: &mut [u16], literals: &mut [i16], lits: &[i16]) -> Result<(), Refusal>
    ensures serves { ServesAt
        cells.old
        literals.old
        (rule lits.now)
        (change_said result)
        cells.new
        literals.new }
    ensures frame { StaysAt rule_writes cells.old literals.old cells.new literals.new }
{
    let mut places = [0u16; tables::HIGHEST_BY_NUMBER];
    let mut by_number = [0u16; tables::HIGHEST_BY_NUMBER];
    let Ok(layout) = state_parts::check(cells, literals, &mut places, &mut by_number) else {
        return Err(Refusal::Malformed);
    };
    let standing = literal::cell_at(cells, layout.clause_sizes_at());
    let shown: &[u16] = &places[..layout.numbers + 1];
    judge_rule(layout, standing, lits, shown)?;
    let rule = Rule { lits };
    accept(layout, cells, literals, rule, shown);
    Ok(())
}
