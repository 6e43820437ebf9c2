// The program `untag`: a book of edition 2 on standard input, the same book in edition 1 on standard output.
#![tactic(auto)]

use std::io;

fn main(rt: HostRuntime) -> io::Result<()> {
    program::print_text(&rt, b"untag", edition_printer::print_untagged)
}
