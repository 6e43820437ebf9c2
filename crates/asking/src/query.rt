// The query.
ghost use Rattle.std.specs.Prelude.{◌≡◌, ◌<◌, None, length};
ghost use Rattle.qbf.specs.Calls.{query};
ghost use Rattle.replies.specs.Replies.{ruling_said};
ghost use Rattle.asking.specs.Answered.{AnsweredOn};

use crate::asked::Asked;
use crate::checked::Checked;
use crate::open;
use reading::Flags;
use refusal::Refusal;
use replies::{Ruled, budget_of, visits_of};
use search_entry::Learned;
use searching::run::{Found, Scratch, run};
use searching::task::Task;

// What is answered, and all that is learned, where it is not as it was.
#[derive(Drop)]
pub struct Told<'a> {
    pub ruled: Ruled,
    pub learned: Option<Learned<'a>>,
}

// As it was.
fn unlearned<'a>(ruled: Ruled) -> Told<'a>
    ensures { result ≡ record { ruled = ruled; learned = None } }
{
    Told {
        ruled,
        learned: None,
    }
}

// "From now on a query gives the flags that are on and those that are off, and the rest are open. The result is swap if every completion is a swap, keep
// if none is, otherwise unsettled." "Full readings behave as before". The content of the lent tables is free.
// stays (no plainer): the flags take one of the checked state's tables and the task two, each beside what is the query's own
pub fn query<'a>(
    checked: Checked<'_>,
    asked: Asked<'_>,
    values: &mut [u8],
    scratch: Scratch<'a>,
) -> Told<'a>
    requires { checked.numbers < length values.old }
    ensures { AnsweredOn
        checked.entry
        (query asked.entry.ceiling asked.entry.on.now asked.entry.off.now)
        (ruling_said result.ruled.ruling result.ruled.visits)
        result.learned }
{
    let numbers = checked.parts.variables.numbers;
    let free = checked.free();
    let values = &mut values[..checked.numbers + 1]; // no number is above the state's limit
    cover::clear(values);
    let flags = Flags {
        numbers,
        places: checked.places,
        free,
    };
    let Ok(full) = reading::read(flags, values, asked.on, asked.off) else {
        return unlearned(Ruled::refused(Refusal::NotFree));
    };
    if !full {
        let matrix = scratch.matrix;
        let trail = scratch.trail;
        let ceiling = asked.ceiling;
        return unlearned(open::query(checked, values, free, ceiling, matrix, trail));
    }
    let mut no_table = [0u8; 1];
    let task = Task {
        places: checked.places,
        kinds: checked.kinds,
        values,
        at: free, // each free variable has its value at the start node
        free,
        yes: true, // there are no lines
        budget: budget_of(asked.ceiling),
    };
    let found = run(checked.given(), task, scratch, &mut no_table);
    let Found { answer, learned } = found;
    let left = answer.budget;
    if left == 0 {
        let ruled = Ruled::stopped(asked.ceiling);
        return Told { ruled, learned };
    }
    let ruled = Ruled::of(answer.verdict, visits_of(asked.ceiling, left));
    Told { ruled, learned }
}
