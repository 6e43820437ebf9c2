// The call one, on a state in two lent tables.
ghost use Rattle.std.specs.Prelude.{length};
ghost use Rattle.qbf.specs.One.{one_forms, one_count};
ghost use Rattle.qbf.specs.Calls.{one};
ghost use Rattle.rule_rows.specs.Accepted.{Named};
ghost use Rattle.state_parts.specs.Layout.{limits_in};
ghost use Rattle.rule_calls.specs.ServesAt.{ServesAt, change_said};
ghost use Rattle.rule_calls.specs.StaysAt.{rule_writes, StaysAt};
ghost use Rattle.rule_calls.specs.AddedAt.{Room, AddedWithin};

use form_rows::add_one;
use refusal::Refusal;
use rule_faults::forms::judge_form;
use rule_rows::standing::Rule;
use state_parts::limits::Layout;

// "All of its rules are added, or none."
// stays (no plainer): `Named Rule.lits` is asked of a form alone, as in `form_rows`
// stays (no plainer): as `accept` of a rule, with what is written in between; a function of both would take that as a closure over two parts that are lent at once
fn accept_form(
    layout: Layout,
    cells: &mut [u16],
    literals: &mut [i16],
    rule: Rule<'_>,
    places: &[u16],
)
    requires { Room (limits_in layout) cells.old literals.old (one_count (length rule.lits.now))
        × Named rule.lits.now }
    ensures { AddedWithin
        (limits_in layout)
        cells.old
        literals.old
        (one_forms rule.entry.lits.now)
        places.now
        cells.new
        literals.new }
{
    let rows_end = layout.clause_cells();
    let sizes_at = layout.clause_sizes_at();
    let sizes_end = layout.learned_clause_sizes_at();
    let cubes_at = layout.learned_cube_sizes_at();
    add_one(
        layout.clauses,
        &mut literals[..rows_end],
        &mut cells[sizes_at..sizes_end],
        rule,
        places,
    );
    cells[cubes_at] = 0;
}

// "An exactly-one form added by a call .. All of its rules are added, or none."
// stays (no plainer): the refusals and what is added are each call's own; a function of both would take them as two closures
pub fn one(cells: &mut [u16], literals: &mut [i16], lits: &[i16]) -> Result<(), Refusal>
    ensures serves { ServesAt
        cells.old
        literals.old
        (one lits.now)
        (change_said result)
        cells.new
        literals.new }
    ensures frame { StaysAt rule_writes cells.old literals.old cells.new literals.new }
{
    let mut places = [0u16; tables::HIGHEST_BY_NUMBER];
    let mut by_number = [0u16; tables::HIGHEST_BY_NUMBER];
    let Ok(layout) = state_parts::check(cells, literals, &mut places, &mut by_number) else {
        return Err(Refusal::Malformed);
    };
    let standing = literal::cell_at(cells, layout.clause_sizes_at());
    let shown: &[u16] = &places[..layout.numbers + 1];
    judge_form(layout, standing, lits, shown)?;
    let rule = Rule { lits };
    accept_form(layout, cells, literals, rule, shown);
    Ok(())
}
