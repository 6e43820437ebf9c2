// One line of a QDIMACS text on what the lines before it have built.
ghost use Rattle.std.specs.Prelude.{◌≡◌, ◌≤◌, ◌<◌, ℕ, List, ℤ, map, not, ltb, eqb};
ghost use Rattle.qbf.specs.Calls.{given, ◌or_else◌};
ghost use Rattle.refusal.specs.Refusal.{fault_in};
ghost use Rattle.qbf.specs.Formula.{forall, number_of};
ghost use Rattle.tables.specs.Views.{quantifier_code};
ghost use Rattle.state_parts.specs.Layout.{limits_in};
ghost use Rattle.qdimacs_form.specs.Lines.{header, line_of};
ghost use Rattle.qdimacs_opening.specs.Stands.{above, counted, part_of, reading_at, problem_stands};
ghost use Rattle.qdimacs_opening.specs.Lines.{TookLineAt, GroupTookAt, ClauseTookAt, TookAt, WholeAt, problem_opens};
ghost use Rattle.opening.specs.Lines.{TakesAt, EndsAt};

use crate::head::{Head, Part};
use crate::whole::complete;
use literal::{Number, cell_at, number_of};
use opening::book::Book;
use opening::kept::kept;
use opening::stage::Stage;
use qdimacs_reader::line::{Line, read_line};
use refusal::Refusal;
use state_parts::limits::Layout;

// Where the text stands, and the limits under which it is opened. In the tables stand the variables of the groups, and from the first clause on the whole formula.
// stays (proof): `problem_stands self [u16] [i16]` is of the two tables, which a line is lent and hands on to a call; a struct of both loans cannot be handed on in parts.
// stays (proof): `problem_stands self [u16] literals` the same, where no literal is read or written
// stays (proof): `literals : List ℤ` is the table of that fact, which the function is not lent
#[derive(Clone, Copy)]
pub struct Problem {
    pub head: Head,
    pub layout: Layout,
}

// A variable's number above the header's count; a number that is no variable's is 3 and not 5.
fn is_above(number: Number, most: usize, variables: usize) -> bool
    ensures { result ≡ above most variables number.0 }
{
    let n = number.0;
    if n <= variables {
        return false;
    }
    n <= most
}

// How many numbers stand before the first that is above the header's count.
fn within(lits: &[i16], most: usize, variables: usize) -> usize
    ensures { result ≡ counted most variables (map number_of lits.now) }
{
    lits.iter()
        .position(|lit| is_above(number_of(*lit), most, variables))
        .unwrap_or(lits.len())
}

// "a 41st flag is 33 .. (in QDIMACS at the end of the text, before 30)"; "A clause count that differs from the header is 30"
fn judge_counts(head: Head, count: usize) -> Result<(), Refusal>
    ensures { fault_in result
        ≡ (given (ltb 0 head.crowd) 33 or_else given (not (eqb count head.clauses)) 30) }
{
    if head.crowd > 0 {
        return Err(Refusal::TooManyFree);
    }
    if count != head.clauses {
        return Err(Refusal::Miscounted);
    }
    Ok(())
}

impl Problem {
    // Before the first line.
    pub fn first(layout: Layout) -> Problem
        ensures { (part_of result.head.part ≡ 0)
            × (result.head.variables ≡ 0)
            × (result.head.clauses ≡ 0)
            × (result.head.crowd ≡ 0)
            × (limits_in result.layout ≡ limits_in layout) }
    {
        Problem {
            head: Head {
                part: Part::Start,
                variables: 0,
                clauses: 0,
                crowd: 0,
            },
            layout,
        }
    }

    // The formula that clauses are judged and added on: from the first clause on it stands.
    fn whole(self, cells: &mut [u16]) -> Problem
        requires { (literals : List ℤ) × problem_stands self cells.old literals }
        ensures { (literals : List ℤ) →
            problem_stands self cells.old literals →
            (part_of self.head.part ≡ 0 → ⊥) →
            WholeAt (reading_at self cells.old literals) result cells.new literals }
    {
        if self.head.part != Part::Groups {
            return self;
        }
        let crowd = complete(self.layout, cells, self.head.variables);
        Problem {
            head: Head {
                part: Part::Clauses,
                variables: self.head.variables,
                clauses: self.head.clauses,
                crowd,
            },
            layout: self.layout,
        }
    }

    // "a header count above 40 is 3", or above the own limit
    fn take_header(self, variables: u32, clauses: u32) -> Result<Problem, Refusal>
        ensures { (cells : List ℕ) (literals : List ℤ) →
            problem_stands self cells literals →
            TookLineAt
            (reading_at self cells literals)
            (header variables clauses)
            result
            cells
            literals }
    {
        if self.head.part != Part::Start {
            return Err(Refusal::NotInLayout);
        }
        if variables as usize > self.layout.numbers {
            return Err(Refusal::NumberRange);
        }
        Ok(Problem {
            head: Head {
                part: Part::Groups,
                variables: variables as usize,
                clauses: clauses as usize,
                crowd: 0,
            },
            layout: self.layout,
        })
    }

    // "a variable above the count 5": the fault of the numbers before it comes first.
    // stays (form): `u16 ≤ quantifier_code forall` is of the number that a keyword gives a quantifier, and that is written into a cell of the tables as it is
    fn take_group(self, cells: &mut [u16], kind: u16, lits: &[i16]) -> Result<Problem, Refusal>
        requires { (0 < kind) × (kind ≤ quantifier_code forall) × (literals : List ℤ) × problem_stands self cells.old literals }
        ensures { (literals : List ℤ) →
            problem_stands self cells.old literals →
            GroupTookAt
            (reading_at self cells.old literals)
            kind
            lits.now
            result
            cells.new
            literals }
    {
        if self.head.part != Part::Groups {
            return Err(Refusal::NotInLayout);
        }
        let n = within(lits, self.layout.numbers, self.head.variables);
        let book = Book {
            stage: Stage::Block,
            layout: self.layout,
        };
        book.take_block(cells, kind, &lits[..n])?;
        if n < lits.len() {
            return Err(Refusal::Undeclared);
        }
        Ok(self)
    }

    fn take_clause(
        self,
        cells: &mut [u16],
        literals: &mut [i16],
        lits: &[i16],
    ) -> Result<Problem, Refusal>
        requires { problem_stands self cells.old literals.old }
        ensures { ClauseTookAt
            (reading_at self cells.old literals.old)
            lits.now
            result
            cells.new
            literals.new }
    {
        if self.head.part == Part::Start {
            return Err(Refusal::NotInLayout);
        }
        let whole = self.whole(cells);
        let book = Book {
            stage: Stage::Rule,
            layout: whole.layout,
        };
        book.take_rule(cells, literals, lits)?;
        Ok(whole)
    }

    // Of the items as many are kept as decide: one more than there can be variables.
    fn take_line(
        self,
        cells: &mut [u16],
        literals: &mut [i16],
        line: &[u8],
    ) -> Result<Problem, Refusal>
        requires { problem_stands self cells.old literals.old }
        ensures { TookAt
            (reading_at self cells.old literals.old)
            (line_of line.now)
            result
            cells.new
            literals.new }
    {
        let mut items = [0i16; tables::HIGHEST_BY_NUMBER];
        let Some(read) = read_line(line, &mut items) else {
            return Err(Refusal::NotInLayout);
        };
        match read {
            Line::Comment => Ok(self),
            Line::Header(variables, clauses) => self.take_header(variables, clauses),
            Line::Group(kind, n) => self.take_group(cells, kind, kept(&items, n)),
            Line::Clause(n) => self.take_clause(cells, literals, kept(&items, n)),
        }
    }

    pub fn take(
        self,
        cells: &mut [u16],
        literals: &mut [i16],
        line: &[u8],
    ) -> Result<Problem, Refusal>
        requires { problem_stands self cells.old literals.old }
        ensures { TakesAt
            problem_stands
            problem_opens
            self
            cells.old
            literals.old
            line.now
            result
            cells.new
            literals.new }
    {
        self.take_line(cells, literals, line)
    }

    // "given at the end of the text, as a missing line is"
    pub fn end(self, cells: &mut [u16]) -> Result<(), Refusal>
        requires { (literals : List ℤ) × problem_stands self cells.old literals }
        ensures { (literals : List ℤ) →
            problem_stands self cells.old literals →
            EndsAt (problem_opens self cells.old literals) cells.new literals result }
    {
        if self.head.part == Part::Start {
            return Err(Refusal::NotInLayout);
        }
        let whole = self.whole(cells);
        let count = cell_at(cells, whole.layout.clause_sizes_at()) as usize;
        judge_counts(whole.head, count)
    }
}
