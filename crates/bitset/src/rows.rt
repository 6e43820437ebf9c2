// Sets of numbers as rows of words. A row of n words has room for the numbers below 64 * n. What is gathered from the words of a row is gathered
// without a branch, so that the machine takes several words side by side.
ghost use Rattle.std.specs.Prelude.{◌+◌, ◌*◌, ◌/◌, ◌^◌, ◌≤◌, ◌<◌, ◌≡◌, length};
ghost use Rattle.std.specs.Int.Bits.{bit_and, bit_or, bit_xor};
ghost use Rattle.bitset.specs.Rows.{width, outside, some_below, least_below, Inserted, Cleared, Unites};
ghost use Rattle.bitset.specs.Words.{rest};

pub const WIDTH: usize = 64; // numbers to a word

pub const ALL: u64 = 18446744073709551615; // the word that has them all

// Number i is put into the row at `from`.
pub fn insert(t: &mut [u64], from: usize, i: usize)
    requires { from + i / width < length t.old }
    ensures { Inserted from i t.old t.new }
{
    let at = from + i / WIDTH;
    let bit = 1u64 << (i % WIDTH);
    t[at] = t[at] | bit;
}

// The row is empty.
pub fn clear(row: &mut [u64])
    ensures { Cleared 0 (length row.old) row.old row.new }
{
    row.fill(0);
}

// The members of a word that are not in another.
fn rest(a: u64, b: u64) -> u64
    ensures { result ≡ rest a b }
{
    a ^ (a & b)
}

// Whether some number is in the first row and not in the second.
pub fn any_outside(a: &[u64], b: &[u64]) -> bool
    requires { length a.now ≤ length b.now }
    ensures { result ≡ some_below (outside a.now 0 b.now 0) (length a.now * width) }
{
    let mut w = 0;
    for (x, y) in a.iter().zip(b) {
        w = w | rest(*x, *y);
    }
    w != 0
}

// The least such number; the first number behind the row where there is none.
// stays (no plainer): the definition `least_below` is the limit where none is below it, by which its caller, `inner::dying::dead`, tells that there is none
pub fn first_outside(a: &[u64], b: &[u64]) -> usize
    requires { (length a.now ≤ length b.now) × (length a.now * width < 2 ^ 64) }
    ensures { result ≡ least_below (outside a.now 0 b.now 0) (length a.now * width) }
{
    for (k, (x, y)) in a.iter().zip(b).enumerate() {
        let w = rest(*x, *y);
        let found = w != 0;
        if found {
            return k * WIDTH + u64::trailing_zeros(w) as usize;
        }
    }
    a.len() * WIDTH
}

// Whether the row has every number, and whether one that was not in it before.
#[derive(Clone, Copy)]
pub struct United {
    pub all: bool,
    pub fresh: bool,
}

// The row at `to` becomes the row at `from` united with a row of another table.
pub fn unite(t: &mut [u64], from: usize, to: usize, by: &[u64]) -> United
    requires { (from + length by.now ≤ to) × (to + length by.now ≤ length t.old) }
    ensures { Unites from to by.now 0 (length by.now) t.old t.new result.all result.fresh }
{
    let mut common = ALL;
    let mut new = 0;
    // stays (proof): over `above.iter_mut().zip(&below[from..]).zip(by)`, with the table split at `to`, the goal `returns` stops at the words above: of a loop
    // over a zip a proof knows what its iterator gave, and not what was written through it
    for (k, more) in by.iter().enumerate() {
        let old = t[from + k];
        let word = old | *more;
        t[to + k] = word;
        common = common & word;
        new = new | (old ^ word);
    }
    United {
        all: common == ALL,
        fresh: new != 0,
    }
}
