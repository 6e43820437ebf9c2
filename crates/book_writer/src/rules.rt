// The lines of the rules, in the order of adding: "Literals stand in place order", as a rule is held.
ghost use Rattle.std.specs.Prelude.{◌≡◌, ◌∷◌};
ghost use Rattle.qbf.specs.Formula.{paper, positive};
ghost use Rattle.qbf.specs.Card.{byte_of};
ghost use Rattle.tables.specs.Views.{rows_of};
ghost use Rattle.layout.specs.Words.{space};
ghost use Rattle.layout.specs.Output.{literal_text, items_text};
ghost use Rattle.booktext.specs.Books.{rule_text, rules_text};
ghost use Rattle.writer.specs.Appended.{Appended, Room};

use crate::clauses::Clauses;
use literal::number_of;
use writer::Output;

// "positive means on, its negation off"
pub fn value_of(lit: i16) -> u8
    ensures { result ≡ byte_of (positive lit) }
{
    if lit < 0 { tables::OFF } else { tables::ON }
}

fn put_literal(out: &mut Output<'_>, lit: i16)
    requires { Room out.old (space ∷ literal_text lit) }
    ensures { Appended out.old (space ∷ literal_text lit) out.new }
{
    let n = number_of(lit).0;
    let value = value_of(lit);
    out.put_item(n as u16, value);
}

fn put_literals(out: &mut Output<'_>, lits: &[i16])
    requires { Room out.old (items_text lits.now) }
    ensures { Appended out.old (items_text lits.now) out.new }
{
    for lit in lits {
        put_literal(out, *lit);
    }
}

#[tactic(auto, using(crate::proofs::Rows::rule_length))]
fn put_rule(out: &mut Output<'_>, lits: &[i16])
    requires { Room out.old (rule_text lits.now) }
    ensures { Appended out.old (rule_text lits.now) out.new }
{
    out.put_word(b"(rule");
    put_literals(out, lits);
    out.put_word(b")\n");
}

pub fn put_rules(out: &mut Output<'_>, clauses: Clauses<'_>)
    requires { Room out.old (rules_text (rows_of paper.literals clauses.cells.now clauses.sizes.now)) }
    ensures { Appended
        out.old
        (rules_text (rows_of paper.literals clauses.entry.cells.now clauses.entry.sizes.now))
        out.new }
{
    let count = clauses.count();
    // stays (no plainer): `Clauses` has no iterator; one would be an `impl` with a proof of what each step gives, for this loop and that of `rules_length`, and be
    // longer than both
    for k in 0..count {
        put_rule(out, clauses.clause(k));
    }
}
