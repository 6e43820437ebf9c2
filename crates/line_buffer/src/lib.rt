// The lines of an input that is read piece by piece into a buffer: what is held of it, and their numbers.
#![tactic(auto)]

ghost use Rattle.std.specs.Prelude.{◌≡◌, ◌-◌, ◌≤◌, length, take, drop};
ghost use Rattle.line_buffer.specs.Numbers.{next_number};

// Of what is held, what is not used yet goes to the front; how many bytes it has.
pub fn to_front(held: &mut [u8], at: usize) -> usize
    requires { at ≤ length held.old }
    ensures { (result ≡ length held.old - at)
        × (length held.new ≡ length held.old)
        × (take result held.new ≡ drop at held.old) }
{
    held.copy_within(at.., 0);
    held.len() - at
}

// A session of more lines than there are numbers keeps the last one.
pub fn next_number(n: u64) -> u64
    ensures { result ≡ next_number n }
{
    n.saturating_add(1)
}
