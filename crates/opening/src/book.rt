// One line of a text of the first edition, on what the lines before it have built. "line by line 1, 2, then as the calls"
ghost use Rattle.std.specs.Prelude.{◌≡◌, ◌≤◌, ℕ, List, ℤ};
ghost use Rattle.qbf.specs.Formula.{forall};
ghost use Rattle.tables.specs.Views.{quantifier_code};
ghost use Rattle.state_parts.specs.Layout.{limits_in};
ghost use Rattle.layout.specs.Forms.{book, end, form_of};
ghost use Rattle.reader.specs.Items.{narrow};
ghost use Rattle.opening.specs.Stages.{rank_of};
ghost use Rattle.opening.specs.Standing.{formula_at, Standing};
ghost use Rattle.opening.specs.Forms.{book_stands, book_opens_at, book_unended_at, TookFormAt, BlockTookAt, RuleTookAt, TookAt};

use crate::block::declare_all;
use crate::kept::kept;
use crate::stage::{Stage, of_block};
use crate::text::OntoTables;
use literal::{Number, number_of};
use reader::keyword::Line;
use reader::line::read_line;
use refusal::Refusal;
use rule_calls::rule;
use state_parts::limits::Layout;

// "2 edition not 1"
// stays (no plainer): it is the number that the text itself must give, and no code for a kind.
const EDITION: usize = 1;

// Where the text stands, and the limits under which it is opened.
#[derive(Clone, Copy)]
pub struct Book {
    pub stage: Stage,
    pub layout: Layout,
}

impl Book {
    // Before the first line.
    pub fn first(layout: Layout) -> Book
        ensures { (rank_of result.stage ≡ 0) × (limits_in result.layout ≡ limits_in layout) }
    {
        Book {
            stage: Stage::Book,
            layout,
        }
    }

    fn at(self, stage: Stage) -> Book
        ensures { (result.stage ≡ stage) × (result.layout ≡ self.layout) }
    {
        Book { stage, ..self }
    }

    fn take_book(self, edition: Number) -> Result<Book, Refusal>
        ensures { (e : ℕ) (cells : List ℕ) (literals : List ℤ) →
            edition.0 ≡ narrow e →
            book_stands self cells literals →
            TookFormAt (rank_of self.stage) (formula_at cells literals) (book e) result cells literals }
    {
        self.stage.place(Stage::Book)?;
        let number = edition.0;
        if number != EDITION {
            return Err(Refusal::Edition);
        }
        Ok(self.at(Stage::Flags))
    }

    // stays (form): `u16 ≤ quantifier_code forall` is of the number that a keyword gives a quantifier, and that is written into a cell of the tables as it is
    // stays (proof): `literals : List ℤ` is the table of that fact, which the function is not lent
    pub fn take_block(self, cells: &mut [u16], kind: u16, lits: &[i16]) -> Result<Book, Refusal>
        requires { (kind ≤ quantifier_code forall) × (literals : List ℤ) × book_stands self cells.old literals }
        ensures { (literals : List ℤ) →
            book_stands self cells.old literals →
            BlockTookAt
            (rank_of self.stage)
            (formula_at cells.old literals)
            kind
            lits.now
            result
            cells.new
            literals }
    {
        self.stage.place(of_block(kind))?;
        declare_all(self.layout, cells, lits, kind)?;
        Ok(self.at(Stage::Block))
    }

    pub fn take_rule(
        self,
        cells: &mut [u16],
        literals: &mut [i16],
        lits: &[i16],
    ) -> Result<Book, Refusal>
        requires { book_stands self cells.old literals.old }
        ensures { RuleTookAt
            (rank_of self.stage)
            (formula_at cells.old literals.old)
            lits.now
            result
            cells.new
            literals.new }
    {
        self.stage.place(Stage::Rule)?;
        rule(cells, literals, lits)?;
        Ok(self.at(Stage::Rule))
    }

    pub fn take_end(self) -> Result<Book, Refusal>
        ensures { (cells : List ℕ) (literals : List ℤ) →
            book_stands self cells literals →
            TookFormAt (rank_of self.stage) (formula_at cells literals) end result cells literals }
    {
        self.stage.place(Stage::End)?;
        Ok(self.at(Stage::End))
    }

    // Of the items as many are kept as decide: one more than there can be variables.
    fn take_line(
        self,
        cells: &mut [u16],
        literals: &mut [i16],
        line: &[u8],
    ) -> Result<Book, Refusal>
        requires { book_stands self cells.old literals.old }
        ensures { TookAt
            (rank_of self.stage)
            (formula_at cells.old literals.old)
            (form_of line.now)
            result
            cells.new
            literals.new }
    {
        let mut items = [0i16; tables::HIGHEST_BY_NUMBER];
        let Some(read) = read_line(line, &mut items) else {
            return Err(Refusal::NotInLayout);
        };
        match read {
            Line::Book => self.take_book(number_of(items[0])),
            Line::Block(kind, n) => self.take_block(cells, kind, kept(&items, n)),
            Line::Rule(n) => self.take_rule(cells, literals, kept(&items, n)),
            Line::End => self.take_end(),
        }
    }
}

impl OntoTables for Book {
    ghost stands = { book_stands };

    ghost opens = { book_opens_at };

    ghost unended = { book_unended_at };

    fn take(self, cells: &mut [u16], literals: &mut [i16], line: &[u8]) -> Result<Book, Refusal> {
        if self.stage == Stage::End {
            return Err(Refusal::NotInLayout);
        }
        self.take_line(cells, literals, line)
    }

    // "`(end)`, nothing after"
    fn end(self) -> Result<(), Refusal> {
        if self.stage != Stage::End {
            return Err(Refusal::NotInLayout);
        }
        Ok(())
    }
}
