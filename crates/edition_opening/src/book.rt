// One line of a text of either edition, on what the lines before it have built. "line by line 1, 2, then as the calls"
ghost use Rattle.std.specs.Prelude.{ℕ, ◌≡◌, eqb, List, ℤ};
ghost use Rattle.layout.specs.Forms.{book};
ghost use Rattle.reader.specs.Items.{narrow};
ghost use Rattle.editions.specs.Lines.{says, line_of};
ghost use Rattle.opening.specs.Stages.{rank_of};
ghost use Rattle.opening.specs.Standing.{formula_at};
ghost use Rattle.edition_opening.specs.Editions.{accepted, number_of, edition_of};
ghost use Rattle.edition_opening.specs.Lines.{BegunAt, kept_with, TookOnAt, TookAt, edition_stands, edition_opens_at, edition_unended_at};

use crate::Editions;
use edition_reader::Edition;
use edition_reader::line::{Line, read_line};
use literal::{Number, number_of};
use opening::book::Book;
use opening::kept::kept;
use opening::stage::Stage;
use opening::text::OntoTables;
use refusal::Refusal;
use state_parts::limits::Layout;

// stays (proof): `edition_stands self [u16] [i16]` is of the two tables, which a line is lent and hands on to a call; a struct of both loans cannot be handed on in parts.
// Where the text stands, and its edition, which is that of its first line.
#[derive(Clone, Copy)]
pub struct EditionBook {
    pub accepts: Editions,
    pub edition: Option<Edition>,
    pub book: Book,
}

impl EditionBook {
    // Before the first line.
    pub fn first(accepts: Editions, layout: Layout) -> EditionBook
        ensures { BegunAt accepts layout result }
    {
        EditionBook {
            accepts,
            edition: None,
            book: Book::first(layout),
        }
    }

    pub fn is_of(self, edition: Edition) -> bool
        ensures { result ≡ eqb (edition_of self.edition) (number_of edition) }
    {
        self.edition == Some(edition)
    }

    // A line of the first edition's forms leaves the edition as it is.
    pub fn keep(self, taken: Result<Book, Refusal>) -> Result<EditionBook, Refusal>
        ensures { result ≡ kept_with self taken }
    {
        taken.map(|book| EditionBook { book, ..self })
    }

    pub fn at(self, stage: Stage) -> EditionBook
        ensures { (result.accepts ≡ self.accepts)
            × (result.edition ≡ self.edition)
            × (result.book.stage ≡ stage)
            × (result.book.layout ≡ self.book.layout) }
    {
        EditionBook {
            book: Book { stage, ..self.book },
            ..self
        }
    }

    fn take_book(self, number: Number) -> Result<EditionBook, Refusal>
        ensures { (e : ℕ) (cells : List ℕ) (literals : List ℤ) →
            number.0 ≡ narrow e →
            edition_stands self cells literals →
            TookOnAt self (formula_at cells literals) (says (book e)) result cells literals }
    {
        self.book.stage.place(Stage::Book)?;
        let edition = self.accepts.edition(number.0)?;
        Ok(EditionBook {
            edition: Some(edition),
            ..self.at(Stage::Flags)
        })
    }

    // Of the items as many are kept as decide: one more than there can be variables.
    fn take_line(
        self,
        cells: &mut [u16],
        literals: &mut [i16],
        line: &[u8],
    ) -> Result<EditionBook, Refusal>
        requires { edition_stands self cells.old literals.old }
        ensures { TookAt
            (accepted self.accepts)
            (edition_of self.edition)
            (rank_of self.book.stage)
            (formula_at cells.old literals.old)
            (line_of line.now)
            result
            cells.new
            literals.new }
    {
        let mut items = [0i16; tables::HIGHEST_BY_NUMBER];
        let Some(read) = read_line(line, &mut items) else {
            return Err(Refusal::NotInLayout);
        };
        match read {
            Line::Book => self.take_book(number_of(items[0])),
            Line::Block(kind, n) => {
                self.keep(self.book.take_block(cells, kind, kept(&items, n)))
            }
            Line::Rule(n) => self.take_plain(cells, literals, kept(&items, n)),
            Line::Tagged(tag, n) => self.take_tagged(cells, literals, tag, kept(&items, n)),
            Line::One(n) => self.take_one(cells, literals, kept(&items, n)),
            Line::End => self.keep(self.book.take_end()),
        }
    }
}

impl OntoTables for EditionBook {
    ghost stands = { edition_stands };

    ghost opens = { edition_opens_at };

    ghost unended = { edition_unended_at };

    fn take(
        self,
        cells: &mut [u16],
        literals: &mut [i16],
        line: &[u8],
    ) -> Result<EditionBook, Refusal> {
        if self.book.stage == Stage::End {
            return Err(Refusal::NotInLayout);
        }
        self.take_line(cells, literals, line)
    }

    // "`(end)`, nothing after"
    fn end(self) -> Result<(), Refusal> {
        self.book.end()
    }
}
