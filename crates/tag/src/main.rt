// The program `tag`: a book of edition 1 on standard input, the same book in edition 2 on standard output.
#![tactic(auto)]

use std::io;

fn main(rt: HostRuntime) -> io::Result<()> {
    program::print_text(&rt, b"tag", edition_printer::print_tagged)
}
