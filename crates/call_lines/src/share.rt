// A call at a place of a day: "A walk stopped by the shared total returns 37 where its own ceiling is higher, otherwise 34, with the visits made" (paper 02, wish 12).
ghost use Rattle.std.specs.Prelude.{◌≡◌, ◌≤◌, ℕ, List, ℤ};
ghost use Rattle.std.proofs.Math.Option.{Option};
ghost use Rattle.qbf.specs.Calls.{Call};
ghost use Rattle.layout.specs.Words.{Bytes};
ghost use Rattle.answer_text.specs.declared.shown.Shown.{Shown};
ghost use Rattle.answer_text.specs.Answered.{AnswerHeld};
ghost use Rattle.call_lines.specs.Calling.{CalledAt};
ghost use Rattle.call_lines.specs.Sharing.{under_limit, HasCeiling, SharedAt};

use crate::{Called, Shared};
use answer_text::Answer;
use answer_text::refused::put_search_refusal;
use line_turns::Turn;
use refusal::Refusal;

// The answer of a call that was made under the smaller of its own ceiling and the share.
// stays (no plainer): the two numbers are those of `shares::limit`, whose line says why they are no struct
pub fn told_under(called: Called, own: u32, share: u32, line: u64, out: &mut Answer<'_>) -> Shared
    ensures held { AnswerHeld out.old out.new }
    ensures shared { (cells : List ℕ) (literals : List ℤ) (c : Option Call) (s₀ : Shown) (t₀ : Bytes) (cells' : List ℕ) (literals' : List ℤ) (t : Bytes)
        → HasCeiling own c
        → CalledAt
        cells
        literals
        (under_limit share c)
        line
        s₀
        t₀
        called
        cells'
        literals'
        t
        out.old.bytes.now
        → SharedAt
        share
        cells
        literals
        c
        line
        s₀
        t₀
        result
        cells'
        literals'
        t
        out.new.bytes.now }
    ensures alone { own ≤ share → (result.turn ≡ called.turn) × (out.new.bytes.now ≡ out.old.bytes.now) }
{
    let Called {
        turn,
        stopped,
        visits,
    } = called;
    if stopped {
        if share < own {
            let length = put_search_refusal(out, Refusal::StoppedByShare.number(), visits, line);
            let turn = Turn {
                shown: turn.shown,
                length,
            };
            return Shared { turn, visits };
        }
    }
    Shared { turn, visits }
}
