// What the call for the closest reading answers, from the lines of a card that stands in a table. Paper 02, wish 9.
#![tactic(auto)]

ghost use Rattle.std.specs.Prelude.{◌≡◌, List, ◌++◌, ℕ, ◌*◌, ◌≤◌, length, take, drop};
ghost use Rattle.std.proofs.Math.Option.{none, some};
ghost use Rattle.qbf.specs.Formula.{most_free};
ghost use Rattle.qbf.specs.Card.{zero_table};
ghost use Rattle.qbf.specs.Closest.{closest_in as closestOf};
ghost use Rattle.refusal.specs.Refusal.{number_of};
ghost use Rattle.serving.specs.Serves.{said, said_with};
ghost use Rattle.closest.specs.Table.{values_in, lines_in, reading_after};
ghost use Rattle.closest_call.specs.Nearest.{nearest_said, found_said};

use closest::Sought;
use refusal::Refusal;

// The answer: in how many variables the reading differs from the given one.
#[derive(Clone, Copy)]
pub struct Nearest {
    pub told: Result<usize, Refusal>,
    pub lines: usize,
    pub visits: u64,
}

impl Nearest {
    pub fn refused(refusal: Refusal, visits: u64) -> Nearest
        ensures { (tb bytes : List ℕ) → nearest_said result.told result.lines result.visits tb bytes ≡ said (some (number_of refusal)) 0 0 visits tb }
    {
        Nearest {
            told: Err(refusal),
            lines: 0,
            visits: visits,
        }
    }

    fn of(differs: usize, lines: usize, visits: u64) -> Nearest
        ensures { (tb bytes : List ℕ) → nearest_said result.told result.lines result.visits tb bytes ≡ said_with none 0 lines visits tb bytes differs }
    {
        Nearest {
            told: Ok(differs),
            lines: lines,
            visits: visits,
        }
    }
}

// No reading: every byte is zero.
pub fn clear_reading(reading: &mut [u8; tables::MOST_FREE])
    ensures { reading.new ≡ zero_table most_free }
{
    cover::clear(reading);
}

// From the lines of the card, which the table holds. The reading is written over the first of the lent bytes.
// stays (no plainer): `Sought` has the table with its lines, to be read; here the table is also cleared, where the card has no line
pub fn on_lines<'a>(
    table: &mut [u8],
    lines: usize,
    visits: u64,
    given: &'a [u8],
    reading: &mut [u8],
) -> Nearest
    requires given_in_bounds { lines * length given.now ≤ length table.old }
    requires given_in_bounds_2 { length given.now ≤ length reading.old }
    ensures reading_after { nearest_said result.told result.lines result.visits table.new (take (length given.now) reading.new)
        ≡ found_said
        (closestOf (lines_in (length given.now) lines table.old) (values_in given.now))
        lines
        visits
        table.old }
    ensures reading_after_2 { reading.new
        ≡ reading_after
        (closestOf (lines_in (length given.now) lines table.old) (values_in given.now))
        (take (length given.now) reading.old)
        ++ drop (length given.now) reading.old }
    ensures reading_len_unchanged { length reading.new ≡ length reading.old }
{
    let free = given.len();
    let sought = Sought {
        table,
        lines,
        given,
    };
    match sought.closest(&mut reading[..free]) {
        Some(differs) => Nearest::of(differs, lines, visits),
        None => {
            cover::clear(table);
            Nearest::refused(Refusal::NoLine, visits)
        }
    }
}
