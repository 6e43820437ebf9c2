// The arguments of a program, one after another: none, or the limits for numbers and rules under which its text is opened.
#![tactic(auto)]

ghost use Rattle.std.specs.Prelude.{◌≡◌, [], ◌∷◌, ◌++◌, ◌≤◌, List, length};
ghost use Rattle.layout.specs.Words.{Bytes};
ghost use Rattle.arguments.specs.Arguments.{limits_of, longest_name};
ghost use Rattle.arguments.specs.Read.{both_of, given, taken_of};

pub mod usage;

use reader::number::read_number;
use state::parts::Limits;
use std::env::{Env, FillError};
use std::io;
use std::io::Print;

// "the program uses 40, 255"
pub const PAPER: Limits = Limits {
    numbers: tables::NUMBERS,
    clauses: tables::CLAUSES,
};

// One byte more than a number has digits: an argument that does not fit is none.
const ROOM: usize = reader::limit::NUMBER.digits + 1;

// The arguments that were taken so far: no more of them is kept than tells what they say. A number is none where the argument is no number.
#[derive(Clone, Copy)]
pub enum Arguments {
    Empty,
    One(Option<u32>),
    Two(Option<Limits>),
    More,
}

// stays (no plainer): two numbers of one kind, each with its place in the line, as the limits are given
fn both(numbers: Option<u32>, clauses: Option<u32>) -> Option<Limits>
    ensures { result ≡ both_of numbers clauses }
{
    Some(Limits {
        numbers: numbers? as usize,
        clauses: clauses? as usize,
    })
}

impl Arguments {
    // With the next argument behind them.
    pub fn with(self, argument: &[u8]) -> Arguments
        ensures { (ws : List Bytes) → self ≡ taken_of ws → result ≡ taken_of (ws ++ (argument.now ∷ [])) }
    {
        match self {
            Arguments::Empty => Arguments::One(read_number(argument)),
            Arguments::One(numbers) => Arguments::Two(both(numbers, read_number(argument))),
            Arguments::Two(_) => Arguments::More,
            Arguments::More => Arguments::More,
        }
    }

    // The limits that they give; where they are outside the form none, and the program's usage is printed.
    pub fn limits(self) -> Option<Limits>
        ensures { (ws : List Bytes) → self ≡ taken_of ws → given result ≡ limits_of ws }
    {
        match self {
            Arguments::Empty => Some(PAPER),
            Arguments::One(_) => None,
            Arguments::Two(limits) => limits,
            Arguments::More => None,
        }
    }
}

// The arguments behind the program's name. One that is longer than a number is taken as the bytes that fit, which are too many.
pub fn read(rt: &impl Env) -> Arguments {
    let mut taken = Arguments::Empty;
    let mut room = [b'0'; ROOM];
    for i in 1..4 {
        match rt.arg(i, &mut room) {
            Ok(n) => taken = taken.with(room.get(..n).unwrap_or(&room)),
            Err(FillError::TooLong) => taken = taken.with(&room),
            Err(FillError::NotPresent) => break,
        }
    }
    taken
}

// The limits under which a program of this name opens its text; none where its usage was printed, and nothing more is done.
// stays (no plainer): `length [u8] ≤ longest_name` is of a word that each program writes once; a type for it would be made there and taken off where it is printed
pub fn limits(rt: &(impl Env + Print), name: &[u8]) -> io::Result<Option<Limits>>
    requires { length name.now ≤ longest_name }
{
    let given = read(rt).limits();
    if given.is_none() {
        usage::print_usage(rt, name)?;
    }
    Ok(given)
}
