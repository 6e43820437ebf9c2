// The card and the keep card.
ghost use Rattle.std.specs.Prelude.{◌≡◌, length};
ghost use Rattle.qbf.specs.Calls.{card_of};
ghost use Rattle.replies.specs.Replies.{card_said};
ghost use Rattle.asking.specs.Answered.{AnsweredOn};

use crate::checked::Checked;
use cover::CardLines;
use replies::{Listed, budget_of, total_lines, visits_of};
use search_entry::Learned;
use searching::run::{Found, Scratch, run};
use searching::task::Task;

// What is answered, and all that is learned, where it is not as it was.
#[derive(Drop)]
pub struct Made<'a> {
    pub listed: Listed,
    pub learned: Option<Learned<'a>>,
}

// "Card writes to a lent byte table and returns lines and visits." "Make the keep card in the same way, with topmost No nodes": the lines are Yes
// nodes, or No nodes. The content of the lent tables is free.
// stays (no plainer): the state, the card's table, what is asked and the lent areas are four callers' things; the verdict and the ceiling are the definition's two arguments
pub fn card_of<'a>(
    checked: Checked<'_>,
    table: &mut [u8],
    yes: bool,
    ceiling: u32,
    values: &mut [u8],
    scratch: Scratch<'a>,
) -> Made<'a>
    ensures table_len_unchanged { length table.new ≡ length table.old }
    ensures answered { AnsweredOn
        checked.entry
        (card_of yes ceiling (length table.old))
        (card_said result.listed.lines result.listed.visits table.new)
        result.learned }
{
    let free = checked.free();
    cover::clear(table);
    cover::clear(values);
    let task = Task {
        places: checked.places,
        kinds: checked.kinds,
        values,
        at: 0,
        free,
        yes,
        budget: budget_of(ceiling),
    };
    let found = run(checked.given(), task, scratch, table);
    let Found { answer, learned } = found;
    let left = answer.budget;
    if left == 0 {
        cover::clear(table);
        let listed = Listed::stopped(ceiling);
        return Made { listed, learned };
    }
    let lines = total_lines(answer.verdict, answer.lines, yes);
    let visits = visits_of(ceiling, left);
    if cover::fits(table.len(), CardLines { count: lines, free }) {
        let listed = Listed::of(lines, visits);
        return Made { listed, learned };
    }
    cover::clear(table);
    let listed = Listed::too_many_lines(visits);
    Made { listed, learned }
}
