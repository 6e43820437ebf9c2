// The parts of a long slice, one for each place, one behind another from its front. Nothing is asked of how long they are to be: a part that would reach beyond the slice is
// shorter, and its book malformed.
ghost use Rattle.std.specs.Prelude.{◌≡◌, ◌≤◌, ◌+◌, min, sum};
ghost use Rattle.places.specs.Rooms.{start, room, BoundsOf};

use shares::BOOKS;

// How many cells and how many literals each place has.
#[repr(C)]
#[derive(Clone, Copy)]
pub struct Rooms {
    pub cells: [usize; BOOKS],
    pub literals: [usize; BOOKS],
}

// A part of a slice: from here, to before there.
#[derive(Clone, Copy)]
pub struct Bounds {
    pub from: usize,
    pub to: usize,
}

// What these parts come to in a slice that is so long.
// stays (no plainer): of the slice only the length is asked, and of the rooms those before a place: two slices of two things
fn end_of(rooms: &[usize], len: usize) -> usize
    ensures { result ≡ min (sum rooms.now) len }
{
    let mut at = 0;
    for room in rooms.iter() {
        at += (*room).min(len - at);
    }
    at
}

// The part of a place in a slice that is so long. A place outside 1 to 8 has one that nothing asks for.
fn part_of(rooms: [usize; BOOKS], place: usize, len: usize) -> Bounds
    ensures { BoundsOf (start rooms place) (room rooms place) len result }
{
    let before = place.saturating_sub(1).min(BOOKS);
    let from = end_of(&rooms[..before], len);
    let mut own = 0;
    if before < BOOKS {
        own = rooms[before];
    }
    let to = from + own.min(len - from);
    Bounds { from, to }
}

impl Rooms {
    pub fn cells_at(&self, place: usize, len: usize) -> Bounds
        ensures { BoundsOf (start self.now.cells place) (room self.now.cells place) len result }
    {
        part_of(self.cells, place, len)
    }

    pub fn literals_at(&self, place: usize, len: usize) -> Bounds
        ensures { BoundsOf (start self.now.literals place) (room self.now.literals place) len result }
    {
        part_of(self.literals, place, len)
    }
}
