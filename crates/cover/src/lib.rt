// The lines of a card, kept in the lent table as a stack while the search runs: a line is pushed where a side of a free node is Yes,
// and taken back where the other side is Yes too. A push past the table's end only counts, and the bytes after the last line are
// always zero, so that the count alone decides refusal 21 at the end.
#![tactic(auto)]

ghost use Rattle.std.specs.Prelude.{◌≡◌, Bool, List, [], ◌∷◌, ◌++◌, suc, ◌+◌, ◌*◌, ◌≤◌, ◌<◌, length, drop, leb};
ghost use Rattle.qbf.specs.Formula.{Node, ◌▹◌, highest};
ghost use Rattle.qbf.specs.Card.{byte_of, zero_table};
ghost use Rattle.tables.specs.Codes.{Statuses};
ghost use Rattle.cover.specs.Cover.{Covers, first_bytes};

// The lines of a card, which stand at the start of its table: how many there are, and how many bytes each has.
#[derive(Clone, Copy)]
pub struct CardLines {
    pub count: usize,
    pub free: usize,
}

// "A refusal .. zeroes the card table."
pub fn clear(table: &mut [u8])
    ensures { table.new ≡ zero_table (length table.old) }
{
    table.fill(tables::OPEN);
}

// "The table holds its length divided by f, rounded down; with f = 0 a line is empty and always fits." The product could be too
// large for a usize.
pub fn fits(size: usize, lines: CardLines) -> bool
    ensures { result ≡ leb (lines.count * lines.free) size }
{
    if lines.free == 0 {
        return true;
    }
    lines.count <= size / lines.free
}

// "A line is f bytes in place order": the statuses of the positive literals of the first k places are their bytes, then comes the value of the
// next. The later places are open, and the free row has zeros there.
fn write_line(row: &mut [u8], statuses: &[u8; tables::CODES], k: usize, value: u8)
    requires k_in_bounds { k < length row.old }
    requires k_lt_numbers { k < highest.numbers }
    ensures { row.new ≡ first_bytes statuses.now k ++ (value ∷ drop (suc k) row.old) }
{
    // stays (proof): over `row[..k].iter_mut().zip(statuses[3..].iter().step_by(2))` the goal `returns` stops at the first k bytes: of a loop over a zip a proof
    // knows what its iterator gave, and not what was written through it
    for (i, byte) in row[..k].iter_mut().enumerate() {
        *byte = statuses[i * 2 + 3];
    }
    row[k] = value;
}

// One line more: the node of k places whose statuses are given, and the value of the next place.
pub fn push_line(
    table: &mut [u8],
    lines: CardLines,
    statuses: &[u8; tables::CODES],
    k: usize,
    value: u8,
)
    requires free_le_numbers { lines.free ≤ highest.numbers }
    requires k_lt_free { k < lines.free }
    ensures table_len_unchanged { length table.new ≡ length table.old }
    ensures covers { (s : Node) (b : Bool) (ls : List Node)
        → Statuses s statuses.now
        → length s ≡ k
        → value ≡ byte_of b
        → length ls ≡ lines.count
        → Covers lines.free table.old ls
        → Covers lines.free table.new (ls ++ ((s ▹ b) ∷ [])) }
{
    if lines.count < table.len() / lines.free {
        let at = lines.count * lines.free;
        let end = at + lines.free;
        write_line(&mut table[at..end], statuses, k, value);
    }
}

// The last line is taken back.
pub fn pop_line(table: &mut [u8], lines: CardLines)
    requires { 1 ≤ lines.count }
    ensures table_len_unchanged { length table.new ≡ length table.old }
    ensures covers { (ls : List Node) (s : Node)
        → length ls + 1 ≡ lines.count
        → Covers lines.free table.old (ls ++ (s ∷ []))
        → Covers lines.free table.new ls }
{
    if fits(table.len(), lines) {
        let at = (lines.count - 1) * lines.free;
        let end = at + lines.free;
        clear(&mut table[at..end]);
    }
}
