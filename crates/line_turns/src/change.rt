// The lines of rule, one, withdraw and forget: accepted, withdrawn, forgotten, or refused.
ghost use Rattle.std.specs.Prelude.{◌≡◌};
ghost use Rattle.std.proofs.Math.Option.{some};
ghost use Rattle.serving.specs.Serves.{number};
ghost use Rattle.rule_calls.specs.ServesAt.{ServesAt, change_said};
ghost use Rattle.answer_text.specs.Answered.{AnswerHeld, Answered};
ghost use Rattle.answer_text.specs.Texts.{change_text};
ghost use Rattle.line_turns.specs.Line.{TurnedBesideAt};
ghost use Rattle.line_turns.specs.Changes.{changes, done_word, card_left};

use crate::{At, Turn};
use answer_text::Answer;
use answer_text::change::put_change;
use answer_text::shown::{Shown, after_rule};
use refusal::{Refusal, number_if};

// A call that changes the rules or the store.
#[derive(Clone, Copy)]
pub enum Change<'a> {
    Rule(&'a [i16]),
    One(&'a [i16]),
    Withdraw,
    Forget,
}

fn make(cells: &mut [u16], literals: &mut [i16], change: Change<'_>) -> Result<(), Refusal>
    ensures { ServesAt
        cells.old
        literals.old
        (changes change.entry)
        (change_said result)
        cells.new
        literals.new }
{
    match change {
        Change::Rule(lits) => rule_calls::rule(cells, literals, lits),
        Change::One(lits) => rule_calls::one(cells, literals, lits),
        Change::Withdraw => rule_calls::withdraw(cells, literals),
        Change::Forget => rule_calls::forget(cells, literals),
    }
}

// stays (no plainer): it is of every number, 0 being a call that is done, as `put_change` is
fn put_done(out: &mut Answer<'_>, change: Change<'_>, refusal: u16, line: u64) -> usize
    ensures { Answered out.old (change_text (done_word change.entry) refusal line) out.new result }
{
    let done: &[u8] = match change {
        Change::Rule(_) | Change::One(_) => b"(accepted)\n",
        Change::Withdraw => b"(withdrawn)\n",
        Change::Forget => b"(forgotten)\n",
    };
    put_change(out, done, refusal, line)
}

// What is forgotten changes no card.
// stays (no plainer): it is of every number, 0 being a call that is accepted, as `after_rule` is
fn card_left(change: Change<'_>, shown: Shown, refusal: u16) -> Shown
    ensures { result ≡ card_left change.entry shown refusal }
{
    match change {
        Change::Forget => shown,
        _ => after_rule(shown, refusal),
    }
}

// 0 where nothing is refused.
// stays (no plainer): `put_change` and `after_rule` are of every number; a `Result` here would be made a number at each of the two
fn refusal_of(made: Result<(), Refusal>) -> u16
    ensures { result ≡ number (change_said made).refusal }
{
    number_if(made.err())
}

#[inline(never)]
pub fn serve_change(
    cells: &mut [u16],
    literals: &mut [i16],
    at: At,
    change: Change<'_>,
    out: &mut Answer<'_>,
) -> Turn
    ensures held { AnswerHeld out.old out.new }
    ensures turned { TurnedBesideAt
        cells.old
        literals.old
        (some (changes change.entry))
        at.number
        at.shown
        result
        cells.new
        literals.new
        out.new.bytes.now }
{
    let made = make(cells, literals, change);
    let refusal = refusal_of(made);
    let length = put_done(out, change, refusal, at.number);
    let left = card_left(change, at.shown, refusal);
    Turn {
        shown: left,
        length,
    }
}
