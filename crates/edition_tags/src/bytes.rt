// Appending bytes, and what stands from a place on.
ghost use Rattle.std.specs.Prelude.{◌≡◌, ◌+◌, ◌≤◌, length, drop};
ghost use Rattle.edition_tags.specs.Appended.{Appended, most_bytes};

use writer::Output;

// What does not fit is not written.
// stays (no plainer): an `Output` has room for what is put, and its `at` is how many of its bytes are written; here the length is counted on past the table's end, since it alone decides refusal 31.
pub fn append(d: &mut [u8], at: usize, w: &[u8]) -> usize
    requires { at + length w.now ≤ most_bytes }
    ensures { Appended d.old at w.now d.new result }
{
    let end = at + w.len();
    if end <= d.len() {
        let mut out = Output { bytes: d, at: at };
        out.put_word(w);
        return out.at;
    }
    end
}

// The bytes from a place on, none past the end.
pub fn after(l: &[u8], from: usize) -> &[u8]
    ensures { result.now ≡ drop from l.now }
{
    let end = l.len();
    if end < from {
        return &l[end..];
    }
    &l[from..]
}
