ghost use Rattle.std.specs.Prelude.{◌≡◌, ◌+◌, ◌-◌, ◌*◌, ◌/◌, ◌^◌, min, Some};
ghost use Rattle.std.specs.Option.{option_map};
ghost use Rattle.time.specs.Counts.{micros};
ghost use Rattle.time.specs.Fit.{difference, fitting, quotient};
ghost use Rattle.time.specs.Shown.{duration_text};

use std::fmt;

const MICROS_PER_MILLI: u64 = 1_000;

pub(crate) const MICROS_PER_SEC: u64 = 1_000_000;

const MICROS_PER_MINUTE: u64 = 60_000_000;

const MICROS_PER_HOUR: u64 = 3_600_000_000;

/// A length of time, in whole microseconds.
#[derive(Clone, Copy, PartialEq, Eq, PartialOrd, Ord)]
pub struct Duration(u64);

impl fmt::Display for Duration {
    ghost output = { λ d. Some (duration_text (micros d)) };

    fn fmt<W: fmt::Write>(&self, f: &mut fmt::Formatter<W>) -> fmt::Result {
        write!(f, "{} µs", self.as_micros())
    }
}

impl Duration {
    pub const ZERO: Self = Self(0);

    pub const MAX: Self = Self(u64::MAX);

    pub const fn from_micros(val: u64) -> Self
        ensures { micros result ≡ val }
    {
        Self(val)
    }

    // A call for each unit, by the crate's names: a line each, on top of which a generic call would come.
    pub fn from_millis(val: u64) -> Option<Self>
        ensures { option_map micros result ≡ fitting 64 (val * 1000) }
    {
        val.checked_mul(MICROS_PER_MILLI).map(Self)
    }

    pub fn from_secs(val: u64) -> Option<Self>
        ensures { option_map micros result ≡ fitting 64 (val * 1000000) }
    {
        val.checked_mul(MICROS_PER_SEC).map(Self)
    }

    pub fn from_minutes(val: u64) -> Option<Self>
        ensures { option_map micros result ≡ fitting 64 (val * 60000000) }
    {
        val.checked_mul(MICROS_PER_MINUTE).map(Self)
    }

    pub fn from_hours(val: u64) -> Option<Self>
        ensures { option_map micros result ≡ fitting 64 (val * 3600000000) }
    {
        val.checked_mul(MICROS_PER_HOUR).map(Self)
    }

    pub const fn as_micros(&self) -> u64
        ensures { result ≡ micros self.now }
    {
        self.0
    }

    pub const fn as_millis(&self) -> u64
        ensures { result ≡ micros self.now / 1000 }
    {
        self.as_micros() / MICROS_PER_MILLI
    }

    pub const fn as_secs(&self) -> u64
        ensures { result ≡ micros self.now / 1000000 }
    {
        self.as_micros() / MICROS_PER_SEC
    }

    pub const fn as_minutes(&self) -> u64
        ensures { result ≡ micros self.now / 60000000 }
    {
        self.as_micros() / MICROS_PER_MINUTE
    }

    pub const fn as_hours(&self) -> u64
        ensures { result ≡ micros self.now / 3600000000 }
    {
        self.as_micros() / MICROS_PER_HOUR
    }

    pub fn checked_add(self, rhs: Self) -> Option<Self>
        ensures { option_map micros result ≡ fitting 64 (micros self + micros rhs) }
    {
        self.as_micros().checked_add(rhs.as_micros()).map(Self)
    }

    pub fn checked_sub(self, rhs: Self) -> Option<Self>
        ensures { option_map micros result ≡ difference (micros self) (micros rhs) }
    {
        self.as_micros().checked_sub(rhs.as_micros()).map(Self)
    }

    pub fn checked_mul(self, rhs: u32) -> Option<Self>
        ensures { option_map micros result ≡ fitting 64 (micros self * rhs) }
    {
        self.as_micros().checked_mul(u64::from(rhs)).map(Self)
    }

    pub fn checked_div(self, rhs: u32) -> Option<Self>
        ensures { option_map micros result ≡ quotient (micros self) rhs }
    {
        self.as_micros().checked_div(u64::from(rhs)).map(Self)
    }

    /// How many times `rhs` goes into this duration.
    pub fn checked_ratio(self, rhs: Self) -> Option<u64>
        ensures { result ≡ quotient (micros self) (micros rhs) }
    {
        self.as_micros().checked_div(rhs.as_micros())
    }

    /// The sum, or [`Duration::MAX`] where it would be longer.
    pub const fn saturating_add(self, rhs: Self) -> Self
        ensures { micros result ≡ min (micros self + micros rhs) (2 ^ 64 - 1) }
    {
        Self(self.as_micros().saturating_add(rhs.as_micros()))
    }

    /// The difference, or [`Duration::ZERO`] where `rhs` is longer. In the contract `-` stops at 0.
    pub const fn saturating_sub(self, rhs: Self) -> Self
        ensures { micros result ≡ micros self - micros rhs }
    {
        Self(self.as_micros().saturating_sub(rhs.as_micros()))
    }
}
