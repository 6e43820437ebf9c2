// The items of a line that stand in a table: all of them, or as many as it has cells, which are more than decide.
ghost use Rattle.std.specs.Prelude.{◌≡◌, min, length, take};

// stays (no plainer): how many items a line has is counted when it is read, past the table's end too
pub fn kept(items: &[i16], n: usize) -> &[i16]
    ensures { result.now ≡ take (min n (length items.now)) items.now }
{
    let count = n.min(items.len());
    &items[..count]
}
