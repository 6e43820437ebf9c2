// Standard input.
#![tactic(auto)]

ghost use Rattle.std.specs.Prelude.{◌≤◌, ◌≡◌, length};
ghost use Rattle.io.specs.Counts.{IsPrefixLen};
ghost use Rattle.input.specs.More.{More};

use std::io::{ErrorKind, Read};

// One read: how many bytes it put at the start of the table. None where the input has ended, or cannot be read. A read that a signal interrupted
// before it moved a byte is tried again, as often as no input uses up.
fn read_some<R: Read>(reader: &mut R, rest: &mut [u8]) -> usize
    ensures { (length rest.new ≡ length rest.old) × (result ≤ length rest.new) }
{
    for _ in 0..u64::MAX {
        match reader.read(rest) {
            Ok(got) => return got,
            Err(e) => {
                if e.kind() != ErrorKind::Interrupted {
                    return 0;
                }
            }
        }
    }
    0
}

// One read behind what is held, which stays: how many bytes it put there, none where the input has ended. Fewer than there is room for are no end.
// stays (no plainer): with the rest of the buffer lent in place of `text` and `held`, both callers would cut it, and test that no more is held than the buffer has,
// which this function does once
pub fn read_more<R: Read>(reader: &mut R, text: &mut [u8], held: usize) -> usize
    ensures { More held text.old result text.new }
{
    if text.len() < held {
        return 0;
    }
    read_some(reader, &mut text[held..])
}

// Reads until the input has ended or the table is full: how many bytes stand at its start.
pub fn read_all<R: Read>(reader: &mut R, text: &mut [u8]) -> usize
    ensures { IsPrefixLen result text.new }
{
    let mut held: usize = 0;
    // stays (no plainer): what is held grows by what each read gave, which no range knows
    while held < text.len() {
        let got = read_more(reader, text, held);
        if got == 0 {
            return held;
        }
        held += got;
    }
    held
}
