// What query, card and keep card answer, in the paper's words and numbers; and the budget of a search under a ceiling.
#![tactic(auto)]

ghost use Rattle.std.specs.Prelude.{◌≡◌, List, [], ℕ, suc, ◌+◌, ◌<◌, ◌≤◌, ◌^◌};
ghost use Rattle.std.proofs.Math.Option.{none, some};
ghost use Rattle.qbf.specs.Ceiling.{highest_ceiling};
ghost use Rattle.refusal.specs.Refusal.{number_of};
ghost use Rattle.serving.specs.Serves.{said};
ghost use Rattle.replies.specs.Replies.{ruling_number, ruling_said, card_said, ruling_for, total};

use node::Verdict;
use node_lines::lined;
use refusal::Refusal;

#[derive(Clone, Copy, Debug, PartialEq, Eq)]
pub enum Ruling {
    Swap,
    Keep,
    Unsettled,
}

impl Ruling {
    // stays (C): other languages read the ruling as this number, and this is the conversion to it
    pub fn number(self) -> u16
        ensures { result ≡ ruling_number self }
    {
        match self {
            Ruling::Keep => 1,
            Ruling::Swap => 2,
            Ruling::Unsettled => 3,
        }
    }
}

// "Yes is swap and No is keep", "otherwise unsettled"; the start node of a full reading is never Mixed.
impl From<Verdict> for Ruling {
    ghost from_gives = { λ v r. r ≡ ruling_for v };

    // stays (no plainer): this is the conversion itself
    fn from(v: Verdict) -> Ruling {
        match v {
            Verdict::Yes => Ruling::Swap,
            Verdict::No => Ruling::Keep,
            Verdict::Mixed => Ruling::Unsettled,
        }
    }
}

// What a query answers.
#[derive(Clone, Copy)]
pub struct Ruled {
    pub ruling: Result<Ruling, Refusal>,
    pub visits: u64,
}

impl Ruled {
    // "A refusal returns its number, 0 lines, 0 visits and the state as given".
    pub fn refused(refusal: Refusal) -> Ruled
        ensures { ruling_said result.ruling result.visits ≡ said (some (number_of refusal)) 0 0 0 [] }
    {
        Ruled {
            ruling: Err(refusal),
            visits: 0,
        }
    }

    // .. and where the search came to its ceiling, "visits equal to the ceiling".
    pub fn stopped(ceiling: u32) -> Ruled
        ensures { ruling_said result.ruling result.visits ≡ said (some 34) 0 0 ceiling [] }
    {
        Ruled {
            ruling: Err(Refusal::Stopped),
            visits: ceiling as u64,
        }
    }

    // By the verdict of the start node.
    pub fn of(v: Verdict, visits: u64) -> Ruled
        ensures { ruling_said result.ruling result.visits ≡ ruling_said (Ok (ruling_for v)) visits }
    {
        Ruled {
            ruling: Ok(Ruling::from(v)),
            visits: visits,
        }
    }
}

// What a card or keep card answers: how many lines its table holds.
#[derive(Clone, Copy)]
pub struct Listed {
    pub lines: Result<usize, Refusal>,
    pub visits: u64,
}

impl Listed {
    pub fn refused(refusal: Refusal, visits: u64) -> Listed
        ensures { (tb : List ℕ) → card_said result.lines result.visits tb ≡ said (some (number_of refusal)) 0 0 visits tb }
    {
        Listed {
            lines: Err(refusal),
            visits: visits,
        }
    }

    pub fn stopped(ceiling: u32) -> Listed
        ensures { (tb : List ℕ) → card_said result.lines result.visits tb ≡ said (some 34) 0 0 ceiling tb }
    {
        Listed::refused(Refusal::Stopped, ceiling as u64)
    }

    // "Only 21 differs: the walk runs to its end first, its visits are returned and its store is kept."
    pub fn too_many_lines(visits: u64) -> Listed
        ensures { (tb : List ℕ) → card_said result.lines result.visits tb ≡ said (some 21) 0 0 visits tb }
    {
        Listed::refused(Refusal::TooManyLines, visits)
    }

    // A card with its lines.
    pub fn of(lines: usize, visits: u64) -> Listed
        ensures { (tb : List ℕ) → card_said result.lines result.visits tb ≡ said none 0 lines visits tb }
    {
        Listed {
            lines: Ok(lines),
            visits: visits,
        }
    }
}

// The lines below the empty node, and its own where it is one, the lines being Yes nodes or No nodes.
pub fn total_lines(v: Verdict, below: usize, yes: bool) -> usize
    requires { below < 2 ^ 63 }
    ensures { result ≡ total yes v below }
{
    if lined(v, tables::FREE, yes) {
        return below + 1;
    }
    below
}

// The budget of a search under that ceiling; and the visits of one that left so much of it.
pub fn budget_of(ceiling: u32) -> u64
    ensures { (result ≡ suc ceiling) × (result ≤ suc highest_ceiling) }
{
    ceiling as u64 + 1
}

pub fn visits_of(ceiling: u32, left: u64) -> u64
    requires { left ≤ suc ceiling }
    ensures { result + left ≡ suc ceiling }
{
    ceiling as u64 + 1 - left
}
