// A tag.
ghost use Rattle.std.specs.Prelude.{◌≡◌, ◌≤◌};
ghost use Rattle.editions.specs.Converting.{tag_text};
ghost use Rattle.edition_tags.specs.Tagged.{Tagged, most_number};

use writer::Output;

// A space, `(tag `, a number of at most five digits, and `)`.
pub const TAG: usize = 12;

// The number of a rule form, and the text of its tag.
#[derive(Clone, Copy)]
pub struct Tag {
    pub number: usize,
    pub bytes: [u8; TAG],
    pub length: usize,
    pub ghost few: { number ≤ most_number },
    pub ghost told: { Tagged number bytes length },
}

fn put_tag(k: usize, d: &mut [u8; TAG]) -> usize
    requires { k ≤ most_number }
    ensures { Tagged k d.new result }
{
    let mut out = Output { bytes: d, at: 0 };
    out.put_word(b" (tag ");
    out.put_number(k as u64);
    out.put_word(b")");
    out.at
}

impl Tag {
    pub fn of(number: usize) -> Tag
        requires { number ≤ most_number }
        ensures { result.number ≡ number }
    {
        let mut bytes = [0u8; TAG];
        let length = put_tag(number, &mut bytes);
        Tag {
            number,
            bytes,
            length,
        }
    }

    pub fn text(&self) -> &[u8]
        ensures { result.now ≡ tag_text self.now.number }
    {
        &self.bytes[..self.length]
    }
}
