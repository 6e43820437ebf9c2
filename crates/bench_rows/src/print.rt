// What the rows write to standard output.
pub fn text(t: &[u8]) {
    io::write_all(1, t);
}

pub fn number(n: u64) {
    io::print_decimal(1, n);
}

pub fn byte(b: u8) {
    number(b as u64);
}
