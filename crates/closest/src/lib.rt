// The closest reading, from the bytes of a card's table: lines of f bytes, 0 open, 1 off, 2 on, their set flags first.
#![tactic(auto)]

ghost use Rattle.std.specs.Prelude.{◌≡◌, cond, map, ◌*◌, ◌≤◌, ◌<◌, length, leb};
ghost use Rattle.qbf.specs.Card.{byte_of};
ghost use Rattle.qbf.specs.Closest.{differs, distance, closest_in as closestOf};
ghost use Rattle.closest.specs.Table.{value_in, values_in, line_in, lines_in, answer_of, reading_after, row_at, Best as BestLine};

// A line, counted from 0, and its number.
#[derive(Clone, Copy)]
struct Best {
    line: usize,
    number: usize,
}

// "0 open, 1 off, 2 on": a value as it is shown.
fn shown(b: u8) -> u8
    ensures { result ≡ byte_of (value_in b) }
{
    if b == 2 { 2 } else { 1 }
}

// One flag counts 1 where the values differ.
fn differ(a: u8, b: u8) -> usize
    ensures { (result ≡ differs (value_in a) (value_in b)) × (result ≤ 1) }
{
    if shown(a) == shown(b) { 0 } else { 1 }
}

// The flags set in a line whose value the reading does not have.
fn line_distance(row: &[u8], given: &[u8]) -> usize
    requires { length row.now ≡ length given.now }
    ensures { (result ≡ distance (line_in row.now) (values_in given.now)) × (result ≤ length given.now) }
{
    let mut n: usize = 0;
    for (b, g) in row.iter().zip(given) {
        if *b == 0 {
            return n;
        }
        n += differ(*b, *g);
    }
    n
}

// How many flags a line sets.
fn set_flags(row: &[u8]) -> usize
    ensures { (result ≡ length (line_in row.now)) × (result ≤ length row.now) }
{
    row.iter().position(|b| *b == 0).unwrap_or(row.len())
}

// Each value as it is shown.
fn show(values: &mut [u8])
    ensures { values.new ≡ map byte_of (values_in values.old) }
{
    for value in values.iter_mut() {
        *value = shown(*value);
    }
}

// "Among equals, the first": an earlier line takes the place of later ones where its number is no larger.
fn closer(best: Best, line: usize, number: usize) -> Best
    ensures { (result.line ≡ cond (leb number best.number) line best.line) × (result.number ≡ cond (leb number best.number) number best.number) }
{
    if number <= best.number {
        Best { line, number }
    } else {
        best
    }
}

// The lines of a card, which its table holds, and the full reading that is given.
#[derive(Clone, Copy)]
pub struct Sought<'a> {
    pub table: &'a [u8],
    pub lines: usize,
    pub given: &'a [u8],
    pub ghost within: { lines * length given.now ≤ length table.now },
}

impl<'a> Sought<'a> {
    // Line k.
    fn row(self, k: usize) -> &'a [u8]
        requires { k < self.lines }
        ensures { (result.now ≡ row_at (length self.entry.given.now) self.entry.table.now k) × (length result.now ≡ length self.entry.given.now) }
    {
        let f = self.given.len();
        let at = k * f;
        let end = at + f;
        &self.table[at..end]
    }

    // The first line with the least number, from the last line to the first.
    fn best(self) -> Best
        requires { 0 < self.lines }
        ensures { BestLine (length self.entry.given.now) self.entry.lines self.entry.table.now (values_in self.entry.given.now) 0 result.line result.number }
    {
        let mut best = Best {
            line: 0,
            number: self.given.len(),
        };
        for k in (0..self.lines).rev() {
            let n = line_distance(self.row(k), self.given);
            best = closer(best, k, n);
        }
        best
    }

    // "Given a full reading, return a reading on the swap card that differs from it in the fewest flags, and that number." A card without a line gives
    // none.
    pub fn closest(self, reading: &mut [u8]) -> Option<usize>
        requires { length reading.old ≡ length self.given.now }
        ensures value { result ≡ answer_of (closestOf (lines_in (length self.entry.given.now) self.entry.lines self.entry.table.now) (values_in self.entry.given.now)) }
        ensures reading_after { reading.new ≡ reading_after (closestOf (lines_in (length self.entry.given.now) self.entry.lines self.entry.table.now) (values_in self.entry.given.now)) reading.old }
    {
        if self.lines == 0 {
            return None;
        }
        let best = self.best();
        let row = self.row(best.line);
        let set = set_flags(row);
        reading.copy_from_slice(self.given);
        reading[..set].copy_from_slice(&row[..set]);
        show(reading);
        Some(best.number)
    }
}
