// Rows that are whole blocks of four words, as steps 1 and 3 pass them, so that the machine takes two words at a time. In the union a block is read before it is written, as step 1
// of the next node reads it.
ghost use Rattle.std.specs.Prelude.{◌≡◌, ◌+◌, ◌*◌, ◌%◌, ◌≤◌, length};
ghost use Rattle.bitset.specs.Rows.{width, outside, some_below, Unites};
ghost use Rattle.tables.specs.Matrices.{block};

use bitset::rows::{ALL, United};

// The row at `to` becomes the row at `from` united with a row of another table.
#[inline(always)] // as `row_down`
pub fn unite_blocks(t: &mut [u64], from: usize, to: usize, by: &[u64]) -> United
    requires { (from + length by.now ≤ to) × (to + length by.now ≤ length t.old) × (length by.now % block ≡ 0) }
    ensures { Unites from to by.now 0 (length by.now) t.old t.new result.all result.fresh }
{
    let mut common = ALL;
    let mut new = 0;
    // stays (no plainer): four words of both rows are read before the first of them is written
    for i in 0..by.len() / tables::BLOCK {
        let k = i * tables::BLOCK;
        let (k1, k2, k3) = (k + 1, k + 1 + 1, k + 1 + 1 + 1);
        let (a, b, c, d) = (t[from + k], t[from + k1], t[from + k2], t[from + k3]);
        let (e, f, g, h) = (a | by[k], b | by[k1], c | by[k2], d | by[k3]);
        t[to + k] = e;
        t[to + k1] = f;
        t[to + k2] = g;
        t[to + k3] = h;
        common = common & e & f & g & h;
        new = new | (a ^ e) | (b ^ f) | (c ^ g) | (d ^ h);
    }
    United {
        all: common == ALL,
        fresh: new != 0,
    }
}

// Whether some number is in the first row and not in the second: a block after the other, until one has such a number.
pub fn any_outside_blocks(a: &[u64], b: &[u64]) -> bool
    requires { (length a.now ≤ length b.now) × (length a.now % block ≡ 0) }
    ensures { result ≡ some_below (outside a.now 0 b.now 0) (length a.now * width) }
{
    let mut w = 0;
    // stays (no plainer): over chunks of both rows the machine would set out for rows of any length, which costs more than a block
    for i in 0..a.len() / tables::BLOCK {
        let k = i * tables::BLOCK;
        let (k1, k2, k3) = (k + 1, k + 1 + 1, k + 1 + 1 + 1);
        let (p, q, r, s) = (a[k], a[k1], a[k2], a[k3]);
        w = w | (p ^ (p & b[k])) | (q ^ (q & b[k1])) | (r ^ (r & b[k2])) | (s ^ (s & b[k3]));
        let found = w != 0;
        if found {
            return true;
        }
    }
    false
}
