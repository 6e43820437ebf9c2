// The calls that change the rules or the store.
ghost use Rattle.std.specs.Prelude.{[]};
ghost use Rattle.qbf.specs.Calls.{rule, one, withdraw, forget};
ghost use Rattle.rule_calls.specs.ServesAt.{ServesAt};
ghost use Rattle.rule_calls.specs.StaysAt.{rule_writes, withdraw_writes, forget_writes, StaysAt};
ghost use Rattle.reply_numbers.specs.Answers.{reply_said};

use reply_numbers::{Reply, of_change};

// stays (C): one function for each export; this and `bullacetop_book_one` differ in the call of their first line
pub fn bullacetop_book_rule(cells: &mut [u16], literals: &mut [i16], lits: &[i16]) -> Reply
    ensures serves { ServesAt
        cells.old
        literals.old
        (rule lits.now)
        (reply_said result [])
        cells.new
        literals.new }
    ensures frame { StaysAt rule_writes cells.old literals.old cells.new literals.new }
{
    let added = rule_calls::rule(cells, literals, lits);
    of_change(added)
}

// stays (C): one function for each export, as `bullacetop_book_rule`
pub fn bullacetop_book_one(cells: &mut [u16], literals: &mut [i16], lits: &[i16]) -> Reply
    ensures serves { ServesAt
        cells.old
        literals.old
        (one lits.now)
        (reply_said result [])
        cells.new
        literals.new }
    ensures frame { StaysAt rule_writes cells.old literals.old cells.new literals.new }
{
    let formed = rule_calls::one(cells, literals, lits);
    of_change(formed)
}

pub fn bullacetop_book_withdraw(cells: &mut [u16], literals: &mut [i16]) -> Reply
    ensures serves { ServesAt
        cells.old
        literals.old
        withdraw
        (reply_said result [])
        cells.new
        literals.new }
    ensures frame { StaysAt withdraw_writes cells.old literals.old cells.new literals.new }
{
    let left = rule_calls::withdraw(cells, literals);
    of_change(left)
}

// Nothing of the literals is written.
pub fn bullacetop_book_forget(cells: &mut [u16], literals: &[i16]) -> Reply
    ensures serves { ServesAt
        cells.old
        literals.now
        forget
        (reply_said result [])
        cells.new
        literals.now }
    ensures frame { StaysAt forget_writes cells.old literals.now cells.new literals.now }
{
    let emptied = rule_calls::forget(cells, literals);
    of_change(emptied)
}
