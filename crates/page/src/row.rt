// The rows of a page.
ghost use Rattle.std.specs.Prelude.{◌≡◌, [], ◌*◌, ◌≤◌, ◌<◌, min, length, get_or};
ghost use Rattle.layout.specs.Page.{page_rows, flag_columns, most_lines, sign_of, head_row, line_row, blank_row, page_of};
ghost use Rattle.page.specs.Columns.{digit as digitOf};

use crate::{COLUMNS, Card, LINES, ROWS};

// A line's number has five columns, and two are blank: the first flag's column, and how many flags have one.
const FLAG: usize = 7;

const FLAGS: usize = COLUMNS - FLAG - 1;

const END: usize = COLUMNS - 1;

// Row 24, counted from 0.
const LAST: usize = ROWS - 1;

// The number of a page or of a line: five columns hold it.
#[derive(Clone, Copy)]
pub struct Numbered {
    pub number: usize,
    pub ghost shown: { (1 ≤ number) × (number ≤ most_lines) },
}

// The last digit of a number; a blank where none is left.
// stays (no plainer): the blank is the byte that is printed there
fn digit(q: usize) -> u8
    ensures { result ≡ digitOf q }
{
    if q == 0 { b' ' } else { b'0' + (q % 10) as u8 }
}

// "a dot for open, 0 for off or 1 for on"
fn sign(b: u8) -> u8
    ensures { result ≡ sign_of b }
{
    if b == tables::OPEN {
        return b'.';
    }
    if b == tables::OFF { b'0' } else { b'1' }
}

// Flags that have a column.
fn shown(n: usize) -> usize
    ensures { result ≡ min n flag_columns }
{
    n.min(FLAGS)
}

// "Row 1 is the word CARD, blanks, and the page number, from 1, right-aligned in columns 67 to 71."
fn head_row(page: Numbered) -> [u8; COLUMNS]
    ensures { result ≡ head_row page.number }
{
    let number = page.number;
    let mut row = [b' '; COLUMNS];
    row[0] = b'C';
    row[1] = b'A';
    row[2] = b'R';
    row[3] = b'D';
    row[66] = digit(number / 10 / 10 / 10 / 10);
    row[67] = digit(number / 10 / 10 / 10);
    row[68] = digit(number / 10 / 10);
    row[69] = digit(number / 10);
    row[70] = digit(number);
    row[END] = b'\n';
    row
}

// "Row 24 and unused columns are blank."
fn blank_row() -> [u8; COLUMNS]
    ensures { result ≡ blank_row }
{
    let mut row = [b' '; COLUMNS];
    row[END] = b'\n';
    row
}

// A line's number "right-aligned in columns 1 to 5, two blanks, then for each flag in place order a dot for open, 0 for off or 1 for on".
fn line_row(numbered: Numbered, line: &[u8]) -> [u8; COLUMNS]
    ensures { result ≡ line_row numbered.number line.now }
{
    let number = numbered.number;
    let mut row = [b' '; COLUMNS];
    row[0] = digit(number / 10 / 10 / 10 / 10);
    row[1] = digit(number / 10 / 10 / 10);
    row[2] = digit(number / 10 / 10);
    row[3] = digit(number / 10);
    row[4] = digit(number);
    row[END] = b'\n';
    let flags = &line[..shown(line.len())];
    // stays (proof): over `row[FLAG..END].iter_mut().zip(line)` the goal `returns` stops at the cells: of a loop over a zip a proof knows what its iterator
    // gave, and not what was written through it
    for (i, flag) in flags.iter().enumerate() {
        row[FLAG + i] = sign(*flag);
    }
    row
}

// Row r, from 0, of a page that the card has.
pub fn page_row(card: Card, page: Numbered, r: usize) -> [u8; COLUMNS]
    requires f_in_bounds { (card.lines * card.free ≤ length card.table.now) × (card.lines ≤ most_lines) }
    requires r_lt_page_rows { r < page_rows }
    ensures { result ≡ get_or (page_of card.entry.table.now card.entry.lines card.entry.free page.number) r [] }
{
    if r == 0 {
        return head_row(page);
    }
    if r == LAST {
        return blank_row();
    }
    let n = (page.number - 1) * LINES + (r - 1);
    if n < card.lines {
        let at = n * card.free;
        let end = at + card.free;
        return line_row(Numbered { number: n + 1 }, &card.table[at..end]);
    }
    blank_row()
}
