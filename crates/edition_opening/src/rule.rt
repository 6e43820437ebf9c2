// A rule of either edition. "In edition 2 every rule form has a tag in front of its literals", in edition 1 none.
ghost use Rattle.std.specs.Prelude.{◌≡◌, ℕ, List, ℤ, leb, length};
ghost use Rattle.std.proofs.Math.Option.{some};
ghost use Rattle.qbf.specs.Calls.{given, ◌or_else◌};
ghost use Rattle.refusal.specs.Refusal as refusal_numbers;
ghost use Rattle.state_parts.specs.Layout.{limits_in};
ghost use Rattle.opening.specs.Standing.{formula_at};
ghost use Rattle.opening.specs.Forms.{book_stands};
ghost use Rattle.edition_opening.specs.Lines.{out_of_range, edition_stands, PlainTookAt, TaggedTookAt, OneTookAt};

use crate::book::EditionBook;
use edition_reader::Edition;
use literal::cell_at;
use opening::book::Book;
use opening::stage::Stage;
use refusal::Refusal;
use rule_calls::one;

const LAST_TAG: u32 = 65535;

// stays (proof): `edition_stands self [u16] [i16]` is of the two tables, which a line is lent and hands on to a call; a struct of both loans cannot be handed on in parts.
// How many rules stand.
fn rules_in(book: Book, cells: &[u16]) -> usize
    ensures { (literals : List ℤ) →
        book_stands book cells.now literals →
        result ≡ length (formula_at cells.now literals).clauses }
{
    cell_at(cells, book.layout.clause_sizes_at()) as usize
}

pub fn out_of_range(tag: u32) -> bool
    ensures { result ≡ out_of_range tag }
{
    tag == 0 || LAST_TAG < tag
}

// "a tag out of range is 39, after 20 and before 7": its refusal where so many rules stand, and at most so many may.
pub fn tag_fault(rules: usize, most: usize) -> Refusal
    ensures { some (refusal_numbers.number_of result) ≡ (given (leb most rules) 20 or_else some 39) }
{
    if most <= rules {
        return Refusal::RulesFull;
    }
    Refusal::TagRange
}

impl EditionBook {
    pub fn take_plain(
        self,
        cells: &mut [u16],
        literals: &mut [i16],
        lits: &[i16],
    ) -> Result<EditionBook, Refusal>
        requires { edition_stands self cells.old literals.old }
        ensures { PlainTookAt
            self
            (formula_at cells.old literals.old)
            lits.now
            result
            cells.new
            literals.new }
    {
        if !self.is_of(Edition::First) {
            return Err(Refusal::NotInLayout);
        }
        self.keep(self.book.take_rule(cells, literals, lits))
    }

    pub fn take_tagged(
        self,
        cells: &mut [u16],
        literals: &mut [i16],
        tag: u32,
        lits: &[i16],
    ) -> Result<EditionBook, Refusal>
        requires { edition_stands self cells.old literals.old }
        ensures { TaggedTookAt
            self
            (formula_at cells.old literals.old)
            tag
            lits.now
            result
            cells.new
            literals.new }
    {
        if !self.is_of(Edition::Second) {
            return Err(Refusal::NotInLayout);
        }
        self.book.stage.place(Stage::Rule)?;
        if out_of_range(tag) {
            let rules = rules_in(self.book, cells);
            return Err(tag_fault(rules, self.book.layout.clauses));
        }
        self.keep(self.book.take_rule(cells, literals, lits))
    }

    // An exactly-one form, by the call for it: all of its rules are added, or none.
    pub fn take_one(
        self,
        cells: &mut [u16],
        literals: &mut [i16],
        lits: &[i16],
    ) -> Result<EditionBook, Refusal>
        requires { edition_stands self cells.old literals.old }
        ensures { OneTookAt
            self
            (formula_at cells.old literals.old)
            lits.now
            result
            cells.new
            literals.new }
    {
        self.book.stage.place(Stage::Rule)?;
        one(cells, literals, lits)?;
        Ok(self.at(Stage::Rule))
    }
}
