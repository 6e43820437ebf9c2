// The total of a day, the visits used at each place, and which places have a book.
ghost use Rattle.std.specs.Prelude.{◌≡◌, length};
ghost use Rattle.days.specs.Accounts.{books};
ghost use Rattle.shares.specs.Shares.{share_of, settled};
ghost use Rattle.places.specs.Day.{booked, byte_of, seated, with_used};

use refusal::Refusal;
use shares::BOOKS;

// A place has no book where its byte is 0, and one where it is any other: nothing that another program writes here is without a meaning.
#[repr(C)]
#[derive(Clone, Copy)]
pub struct Accounts {
    pub total: u32,
    pub used: [u32; BOOKS],
    pub books: [u8; BOOKS],
}

impl Accounts {
    // Of a place outside 1 to 8 nothing is said by this.
    fn has_book(&self, place: usize) -> bool
        ensures { result ≡ booked self.now.books place }
    {
        let i = place.saturating_sub(1);
        if i < BOOKS { self.books[i] != 0 } else { false }
    }

    // The visits that a call at a place may use; 38, before all else, or the day's 22.
    pub fn allowance(&self, place: usize) -> Result<u32, Refusal>
        ensures { result ≡ share_of self.now.total self.now.used place (booked self.now.books place) }
    {
        let book = self.has_book(place);
        shares::allowance(self.used, self.total, place, book)
    }

    // The visits of a call are charged to its place, where it may use them.
    pub fn charge(&mut self, place: usize, visits: u64)
        ensures { self.new ≡ with_used self.old (settled self.old.total self.old.used place visits) }
    {
        let mut used = self.used;
        shares::charge(&mut used, self.total, place, visits);
        self.used = used;
    }

    // Whether a place has a book from now on; outside 1 to 8 there is none to be told of.
    pub fn seat(&mut self, place: usize, book: bool)
        ensures seats { self.new ≡ seated self.old place book }
        ensures eight { length self.old.books ≡ books }
    {
        let mut bytes = self.books;
        let i = place.saturating_sub(1);
        if i < BOOKS {
            bytes[i] = byte(book);
        }
        self.books = bytes;
    }
}

// stays (C): other languages read and write a byte for each place
fn byte(book: bool) -> u8
    ensures { result ≡ byte_of book }
{
    if book { 1 } else { 0 }
}
