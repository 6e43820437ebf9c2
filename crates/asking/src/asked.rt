// What a query or a closest reading asks.

// The variables that are on, those that are off, and the ceiling of visits.
#[derive(Clone, Copy)]
pub struct Asked<'a> {
    pub on: &'a [i16],
    pub off: &'a [i16],
    pub ceiling: u32,
}
