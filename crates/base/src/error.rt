// Every refusal, by one type.
ghost use Rattle.std.specs.Prelude.{◌≡◌, Some};
ghost use Rattle.base.specs.Refusals.{number_of, error_text};

use std::fmt;

/// Why a call refused. Each case has a number of its own, which `number` tells.
#[derive(Clone, Copy, PartialEq, Eq, Debug)]
pub enum Error {
    /// The timer does not run.
    TimerInactive,
    /// The duration has no ticks.
    InvalidTimeout,
    /// The interrupt is not pending, or a count can't be read now.
    Unfinished,
    /// The time does not fit.
    OutOfRange,
    /// The chip's figures lie outside the limits of a profile.
    BadProfile,
    /// The chip has no such part.
    NoSuchPart,
    /// The record with this index, from 0, names no place or has a filler byte that is not 0.
    BadRecord(usize),
    /// The list is no whole number of records, or too long; with the number of whole records that count.
    BadLength(usize),
}

impl fmt::Display for Error {
    ghost output = { λ e. Some (error_text e) };

    fn fmt<W: fmt::Write>(&self, f: &mut fmt::Formatter<W>) -> fmt::Result {
        let number = self.number();
        match self {
            Error::TimerInactive
            | Error::InvalidTimeout
            | Error::Unfinished
            | Error::OutOfRange
            | Error::BadProfile
            | Error::NoSuchPart => write!(f, "refused {number}"),
            Error::BadRecord(at) | Error::BadLength(at) => write!(f, "refused {number} at {at}"),
        }
    }
}

impl std::error::Error for Error {}

impl Error {
    // A match, since variants that carry a value have no discriminants.
    pub fn number(&self) -> u8
        ensures { result ≡ number_of self.now }
    {
        match self {
            Error::TimerInactive => 1,
            Error::InvalidTimeout => 2,
            Error::Unfinished => 3,
            Error::OutOfRange => 4,
            Error::BadProfile => 5,
            Error::NoSuchPart => 6,
            Error::BadRecord(_) => 7,
            Error::BadLength(_) => 8,
        }
    }
}
