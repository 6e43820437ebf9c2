// The rules that an exactly-one form stands for, "the rule of all its literals, then one rule for each pair as given, first with second,
// first with third and so on, with both negated".
#![tactic(auto)]

ghost use Rattle.std.specs.Prelude.{◌≡◌, ◌+◌, ◌≤◌, neg_ℤ, length, get_or};
ghost use Rattle.qbf.specs.Formula.{paper, highest, number_of};
ghost use Rattle.qbf.specs.One.{pairs_with, pairs, one_forms, one_count};
ghost use Rattle.tables.specs.Views.{Table};
ghost use Rattle.rule_rows.specs.Accepted.{Named, Added};
ghost use Rattle.rule_rows.specs.Lent.{AddedTo};

use rule_rows::standing::{Clauses, Rule};

// The one literal whose negation is not a signed 16-bit number.
const LEAST: i16 = -32768;

// The negation of a variable's literal.
fn negation(lit: i16) -> i16
    ensures { number_of lit ≤ highest.numbers → result ≡ neg_ℤ lit }
{
    if lit == LEAST {
        return lit;
    }
    -lit
}

// The pairs of a literal and each later one.
// stays (no plainer): `Named` is of the literals behind one of them, another slice at each turn: a type of them would be made anew, with a proof, at each
fn add_pairs_with(rows: &mut Clauses<'_>, lit: i16, rest: &[i16], places: &[u16])
    requires { (get_or rows.old.sizes.now 0 0 + length (pairs_with lit rest.now) ≤ rows.old.most)
        × (number_of lit ≤ highest.numbers)
        × Named rest.now }
    ensures { AddedTo rows.old (pairs_with lit rest.now) places.now rows.new }
{
    let first = negation(lit);
    for other in rest {
        let pair = [first, negation(*other)];
        rows.add(Rule { lits: &pair }, places);
    }
}

fn add_pairs(rows: &mut Clauses<'_>, lits: &[i16], places: &[u16])
    requires { (get_or rows.old.sizes.now 0 0 + length (pairs lits.now) ≤ rows.old.most)
        × Named lits.now }
    ensures { AddedTo rows.old (pairs lits.now) places.now rows.new }
{
    // stays (no plainer): what follows an item is a slice from its index; a chain that gives an item and the rest has to cut the slice by hand too
    for (i, lit) in lits.iter().enumerate() {
        add_pairs_with(rows, *lit, &lits[i + 1..], places);
    }
}

// "the rule of all its literals, then one rule for each pair"
// stays (no plainer): `Named Rule.lits` is asked of a form alone; a struct of a form's literals would be a rule's with this one fact more, made of it at each of the three
fn add_form(rows: &mut Clauses<'_>, rule: Rule<'_>, places: &[u16])
    requires { (get_or rows.old.sizes.now 0 0 + one_count (length rule.lits.now) ≤ rows.old.most)
        × Named rule.lits.now }
    ensures { AddedTo rows.old (one_forms rule.entry.lits.now) places.now rows.new }
{
    let lits = rule.lits;
    rows.add(rule, places);
    add_pairs(rows, lits, places);
}

// "All of its rules are added", to the tables as they are lent.
// stays (no plainer): as `rule_rows::clauses::add_rule`
// stays (no plainer): `usize ≤ highest.clauses` is of a state's limit, which `Layout` keeps; the rows alone are lent here, and know no layout
pub fn add_one(most: usize, cells: &mut [i16], sizes: &mut [u16], rule: Rule<'_>, places: &[u16])
    requires { (most ≤ highest.clauses)
        × Table paper.literals most cells.old sizes.old
        × (get_or sizes.old 0 0 + one_count (length rule.lits.now) ≤ most)
        × Named rule.lits.now }
    ensures { Added
        most
        cells.old
        sizes.old
        (one_forms rule.entry.lits.now)
        places.now
        cells.new
        sizes.new }
{
    let mut rows = Clauses { most, cells, sizes };
    add_form(&mut rows, rule, places);
}
