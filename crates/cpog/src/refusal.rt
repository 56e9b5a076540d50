// Every numbered refusal of the library.
ghost use Rattle.std.specs.Prelude.{◌≡◌};
ghost use Rattle.cpog.specs.Refusals.{number_of};

use std::error::Error;
use std::fmt;

// In the order of their numbers; docs/REFUSALS.md says what holds after each.
#[derive(Clone, Copy, PartialEq, Eq, Debug)]
pub enum Refusal {
    TextTooLong,
    LineNotDue,
    BadValue,
    BadReference,
    NotACondition,
    TooDeep,
    TooManyNodes,
    TableTooLarge,
    TableLength,
    BadActions,
    ShortBuffer,
    AlreadyOpen,
    NotAllowed,
    // Carries the lowest event that precedes itself.
    Cycle(u8),
    // Carries the clashing pair with the least lower, then least higher event.
    Clash(u8, u8),
    NotOpen,
    ShortRegisters,
    NotPresent,
    NotWaiting,
    // Carries the lowest unfinished event that precedes.
    Preceded(u8),
    NotBegun,
    OtherRun,
    ShortReport,
    OtherSize,
    NotWellFormed,
}

impl Refusal {
    pub fn number(self) -> u8
        ensures { result ≡ number_of self }
    {
        match self {
            Refusal::TextTooLong => 1,
            Refusal::LineNotDue => 2,
            Refusal::BadValue => 3,
            Refusal::BadReference => 4,
            Refusal::NotACondition => 5,
            Refusal::TooDeep => 6,
            Refusal::TooManyNodes => 7,
            Refusal::TableTooLarge => 8,
            Refusal::TableLength => 9,
            Refusal::BadActions => 10,
            Refusal::ShortBuffer => 11,
            Refusal::AlreadyOpen => 12,
            Refusal::NotAllowed => 13,
            Refusal::Cycle(_) => 14,
            Refusal::Clash(_, _) => 15,
            Refusal::NotOpen => 16,
            Refusal::ShortRegisters => 17,
            Refusal::NotPresent => 18,
            Refusal::NotWaiting => 19,
            Refusal::Preceded(_) => 20,
            Refusal::NotBegun => 21,
            Refusal::OtherRun => 22,
            Refusal::ShortReport => 23,
            Refusal::OtherSize => 24,
            Refusal::NotWellFormed => 25,
        }
    }
}

impl fmt::Display for Refusal {
    ghost use Rattle.std.specs.Prelude.{Some, ◌++◌, codes, decimal};
    ghost use Rattle.cpog.specs.Refusals.{number_of};

    ghost output = { λ refusal. Some (codes "refusal " ++ decimal (number_of refusal)) };

    fn fmt<W: fmt::Write>(&self, f: &mut fmt::Formatter<W>) -> fmt::Result {
        write!(f, "refusal {}", self.number())
    }
}

impl Error for Refusal {}
