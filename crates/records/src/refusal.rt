// Why a call is refused.
ghost use Rattle.std.specs.Prelude.{◌≡◌};
ghost use Rattle.records.specs.Refusal as D;

use std::error::Error;
use std::fmt;

// The joint's case is not the kind called, or not one of the three. A stage by value and the stop code
// are refused for nothing else.
#[derive(Clone, Copy, PartialEq, Eq, Debug)]
pub struct WrongKind;

// What refuses a call or a list, in the order of the papers' numbers.
#[derive(Clone, Copy, PartialEq, Eq, Debug)]
pub enum Cause {
    // The joint's case, as above.
    Kind,
    // The first body index is below -1, or at or above the body count, and the second likewise.
    FirstIndex,
    SecondIndex,
    // The slot is at or above the joint count.
    Slot,
    // The stage is above 2.
    Stage,
    // The body or the joint count is above 32.
    Count,
    // The list is of odd length, or too long.
    Length,
}

// A cause, and the position of the call that it refuses; 0 where no call of a list is refused.
#[derive(Clone, Copy, PartialEq, Eq, Debug)]
pub struct Refusal {
    pub cause: Cause,
    pub place: u32,
}

impl Cause {
    // The papers' number of the cause.
    pub fn number(self) -> u32
        ensures { result ≡ D.number_of self }
    {
        match self {
            Cause::Kind => 1,
            Cause::FirstIndex => 2,
            Cause::SecondIndex => 3,
            Cause::Slot => 4,
            Cause::Stage => 5,
            Cause::Count => 6,
            Cause::Length => 7,
        }
    }
}

impl From<WrongKind> for Cause {
    ghost from_gives = { D.AsCause };

    fn from(_: WrongKind) -> Cause {
        Cause::Kind
    }
}

// What refuses before any call of a list is looked at.
impl From<Cause> for Refusal {
    ghost from_gives = { D.AtPlace0 };

    fn from(cause: Cause) -> Refusal {
        Refusal { cause, place: 0 }
    }
}

impl fmt::Display for WrongKind {
    fn fmt<W: fmt::Write>(&self, f: &mut fmt::Formatter<W>) -> fmt::Result {
        f.write_str("the joint is not of the kind called")
    }
}

impl fmt::Display for Cause {
    fn fmt<W: fmt::Write>(&self, f: &mut fmt::Formatter<W>) -> fmt::Result {
        f.write_str(match self {
            Cause::Kind => "the joint is not of the kind called, or of none of the three",
            Cause::FirstIndex => "the joint's first body index is out of range",
            Cause::SecondIndex => "the joint's second body index is out of range",
            Cause::Slot => "the slot is past the last joint",
            Cause::Stage => "the stage is above 2",
            Cause::Count => "a count is above 32",
            Cause::Length => "the list is of odd length, or too long",
        })
    }
}

// By number and place, as the papers have it.
impl fmt::Display for Refusal {
    fn fmt<W: fmt::Write>(&self, f: &mut fmt::Formatter<W>) -> fmt::Result {
        write!(f, "number {}, place {}", self.cause.number(), self.place)
    }
}

impl Error for WrongKind {}

impl Error for Cause {}

impl Error for Refusal {}
