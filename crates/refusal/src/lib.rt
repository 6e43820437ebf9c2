// Why a text, a rule, a reading or a call is refused. Each refusal has one number, by which programs print it and other languages read it.
#![tactic(auto)]

ghost use Rattle.std.specs.Prelude.{◌≡◌};
ghost use Rattle.refusal.specs.Refusal.{number_of, number_if};

#[derive(Clone, Copy, Debug, PartialEq, Eq)]
pub enum Refusal {
    // a text: a line outside the layout, or a missing one; another edition
    NotInLayout,
    Edition,
    // a variable or a literal: its number is none; declared twice; not declared; twice in one rule
    NumberRange,
    DeclaredTwice,
    Undeclared,
    Repeated,
    // a rule of no literal, or of too many
    RuleLength,
    // a reading names what is no flag, or a flag twice
    NotFree,
    TextTooLong,
    // as many rules stand as there may be
    RulesFull,
    // a card with more lines than its table holds
    TooManyLines,
    // the state is malformed
    Malformed,
    // a QDIMACS text whose header counts otherwise
    Miscounted,
    // a table too short for its text
    TableTooShort,
    // a withdrawal where no rule stands
    NoRule,
    TooManyFree,
    // a search that came to its ceiling
    Stopped,
    // a closest reading on a card without a line; a page that no card has
    NoLine,
    NoPage,
    // a search that came to the total which books share; a place without a book
    StoppedByShare,
    NoBook,
    // a tag out of range; a conversion that would lose one
    TagRange,
    TagLost,
}

impl Refusal {
    // stays (no plainer): the contract is this table of numbers, which are not the variants' places
    pub fn number(self) -> u16
        ensures { result ≡ number_of self }
    {
        match self {
            Refusal::NotInLayout => 1,
            Refusal::Edition => 2,
            Refusal::NumberRange => 3,
            Refusal::DeclaredTwice => 4,
            Refusal::Undeclared => 5,
            Refusal::Repeated => 6,
            Refusal::RuleLength => 7,
            Refusal::NotFree => 8,
            Refusal::TextTooLong => 9,
            Refusal::RulesFull => 20,
            Refusal::TooManyLines => 21,
            Refusal::Malformed => 22,
            Refusal::Miscounted => 30,
            Refusal::TableTooShort => 31,
            Refusal::NoRule => 32,
            Refusal::TooManyFree => 33,
            Refusal::Stopped => 34,
            Refusal::NoLine => 35,
            Refusal::NoPage => 36,
            Refusal::StoppedByShare => 37,
            Refusal::NoBook => 38,
            Refusal::TagRange => 39,
            Refusal::TagLost => 40,
        }
    }
}

// The number that other languages read: 0 where nothing is refused.
// stays (C): the structs that other languages read hold a number, 0 where nothing is refused
pub fn number_if(refused: Option<Refusal>) -> u16
    ensures { result ≡ number_if refused }
{
    match refused {
        Some(r) => r.number(),
        None => 0,
    }
}
