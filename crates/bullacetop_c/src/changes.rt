// The calls that change the rules or the store.
ghost use Rattle.std.specs.Prelude.{[]};
ghost use Rattle.qbf.specs.Calls.{rule, one, withdraw, forget};
ghost use Rattle.rule_calls.specs.ServesAt.{ServesAt};
ghost use Rattle.rule_calls.specs.StaysAt.{rule_writes, withdraw_writes, forget_writes, StaysAt};
ghost use Rattle.reply_numbers.specs.Answers.{reply_said};

use reply_numbers::Reply;

#[unsafe(no_mangle)]
pub extern "C" fn bullacetop_book_rule(
    cells: &mut [u16],
    literals: &mut [i16],
    lits: &[i16],
) -> Reply
    ensures serves { ServesAt
        cells.old
        literals.old
        (rule lits.now)
        (reply_said result [])
        cells.new
        literals.new }
    ensures frame { StaysAt rule_writes cells.old literals.old cells.new literals.new }
{
    book_calls::changes::bullacetop_book_rule(cells, literals, lits)
}

#[unsafe(no_mangle)]
pub extern "C" fn bullacetop_book_one(
    cells: &mut [u16],
    literals: &mut [i16],
    lits: &[i16],
) -> Reply
    ensures serves { ServesAt
        cells.old
        literals.old
        (one lits.now)
        (reply_said result [])
        cells.new
        literals.new }
    ensures frame { StaysAt rule_writes cells.old literals.old cells.new literals.new }
{
    book_calls::changes::bullacetop_book_one(cells, literals, lits)
}

#[unsafe(no_mangle)]
pub extern "C" fn bullacetop_book_withdraw(cells: &mut [u16], literals: &mut [i16]) -> Reply
    ensures serves { ServesAt
        cells.old
        literals.old
        withdraw
        (reply_said result [])
        cells.new
        literals.new }
    ensures frame { StaysAt withdraw_writes cells.old literals.old cells.new literals.new }
{
    book_calls::changes::bullacetop_book_withdraw(cells, literals)
}

// Nothing of the literals is written.
#[unsafe(no_mangle)]
pub extern "C" fn bullacetop_book_forget(cells: &mut [u16], literals: &[i16]) -> Reply
    ensures serves { ServesAt
        cells.old
        literals.now
        forget
        (reply_said result [])
        cells.new
        literals.now }
    ensures frame { StaysAt forget_writes cells.old literals.now cells.new literals.now }
{
    book_calls::changes::bullacetop_book_forget(cells, literals)
}
