// The card answered last, from which pages are printed. Its lines stand in a table that outlives the call.
ghost use Rattle.std.specs.Prelude.{◌≡◌, cond, eqb};
ghost use Rattle.answer_text.specs.Shown.{no_card, CardToldBy};

use refusal::{Refusal, number_if};

// The card stands in the first bytes of the table, as many as the call asked for; a refusal other than 0 is no card.
// stays (C): the header declares the number of the refusal, 0 for none, beside the counts
#[repr(C)]
#[derive(Clone, Copy)]
pub struct Shown {
    pub refusal: u16,
    pub size: usize,
    pub lines: usize,
    pub free: usize,
}

// No card has been answered yet, or what was answered may no longer hold: "36 a page the card does not have".
pub fn no_card() -> Shown
    ensures { result ≡ no_card }
{
    Shown {
        refusal: Refusal::NoPage.number(),
        size: 0,
        lines: 0,
        free: 0,
    }
}

// A rule that is accepted or withdrawn leaves no card, a refused call what there was.
// stays (no plainer): it is of every number, 0 being a call that is accepted; a `Result<(), Refusal>` has 24 values, and would ask more of a caller
pub fn after_rule(shown: Shown, refusal: u16) -> Shown
    ensures { result ≡ cond (eqb refusal 0) no_card shown }
{
    if refusal == 0 {
        return no_card();
    }
    shown
}

// The card of a call with a table of that many bytes, on a book with so many free variables.
pub fn card_told(free: usize, lines: Result<usize, Refusal>, size: usize) -> Shown
    ensures { CardToldBy free lines size result }
{
    Shown {
        refusal: number_if(lines.err()),
        size: size,
        lines: lines.unwrap_or(0),
        free: free,
    }
}
