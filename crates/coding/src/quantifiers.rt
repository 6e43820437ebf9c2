// The quantifier of every code's variable.
ghost use Rattle.std.specs.Prelude.{◌≡◌, true, false, [], ◌≤◌, get_or, set};
ghost use Rattle.qbf.specs.Formula.{highest, Prefix};
ghost use Rattle.qbf.specs.Calls.{numbers_are_ok};
ghost use Rattle.tables.specs.Views.{Numbers, Kinds};
ghost use Rattle.tables.specs.Codes.{code_at, Quantified};

use literal::cell_at;

// The quantifier of the variable of a place, by its number.
fn kind_at<'a>(numbers: &'a [u16], kinds: &'a [u16], place: usize) -> u8
    ensures { get_or kinds.now (get_or numbers.now place 0) 0 ≤ 2
        → result ≡ get_or kinds.now (get_or numbers.now place 0) 0 }
{
    let kind = cell_at(kinds, cell_at(numbers, place) as usize);
    if kind <= tables::FORALL {
        return kind as u8;
    }
    0
}

// The quantifier of a place, for its two codes.
// stays (no plainer): `usize ≤ highest.numbers` is asked of a place alone, whose two codes are indices here: `literal::Place` is of any limit and keeps no fact; a struct of one number that
// did would be made at each call and opened at the index
fn put(table: &mut [u8; tables::CODES], place: usize, kind: u8)
    requires { place ≤ highest.numbers }
    ensures { table.new ≡ set (set table.old (code_at place false) kind) (code_at place true) kind }
{
    table[place * 2] = kind;
    table[place * 2 + 1] = kind;
}

// The quantifiers of the first places, as many as there are variables; the place behind them has none. The table's content before is free, and stays beyond that place.
// stays (no plainer): `usize ≤ highest.numbers` is of the count in the table's first cell, and says how far the table by code is written
pub fn quantifiers_of<'a>(numbers: &'a [u16], kinds: &'a [u16], table: &mut [u8; tables::CODES])
    requires { get_or numbers.now 0 0 ≤ highest.numbers }
    ensures { (D : Prefix)
        → Numbers D numbers.now
        → Kinds D kinds.now
        → numbers_are_ok highest [] D ≡ true
        → Quantified D table.new }
{
    let count = cell_at(numbers, 0) as usize;
    put(table, 0, tables::FREE as u8); // no variable's place
    // stays (no plainer): a chain is `numbers.iter().enumerate().skip(1).take(count)`, three steps and a pair for a range and an accessor by place
    for i in 0..count {
        let place = i + 1;
        let kind = kind_at(numbers, kinds, place);
        put(table, place, kind);
    }
    if count < tables::HIGHEST_NUMBERS {
        put(table, count + 1, tables::END);
    }
}
