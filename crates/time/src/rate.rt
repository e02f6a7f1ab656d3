ghost use Rattle.std.specs.Prelude.{◌≡◌, ◌*◌, ◌/◌, Some};
ghost use Rattle.std.specs.Option.{option_map};
ghost use Rattle.time.specs.Counts.{hertz, micros};
ghost use Rattle.time.specs.Fit.{fitting, quotient};
ghost use Rattle.time.specs.Shown.{rate_text};

use crate::duration::{Duration, MICROS_PER_SEC};
use std::fmt;

const HZ_PER_KHZ: u32 = 1_000;

const HZ_PER_MHZ: u32 = 1_000_000;

/// How often something happens in a second, in whole hertz.
#[derive(Clone, Copy, PartialEq, Eq, PartialOrd, Ord)]
pub struct Rate(u32);

impl fmt::Display for Rate {
    ghost output = { λ r. Some (rate_text (hertz r)) };

    fn fmt<W: fmt::Write>(&self, f: &mut fmt::Formatter<W>) -> fmt::Result {
        write!(f, "{} Hz", self.as_hz())
    }
}

impl Rate {
    pub const fn from_hz(val: u32) -> Self
        ensures { hertz result ≡ val }
    {
        Self(val)
    }

    // A call for each unit, as a duration has.
    pub fn from_khz(val: u32) -> Option<Self>
        ensures { option_map hertz result ≡ fitting 32 (val * 1000) }
    {
        val.checked_mul(HZ_PER_KHZ).map(Self)
    }

    pub fn from_mhz(val: u32) -> Option<Self>
        ensures { option_map hertz result ≡ fitting 32 (val * 1000000) }
    {
        val.checked_mul(HZ_PER_MHZ).map(Self)
    }

    pub const fn as_hz(&self) -> u32
        ensures { result ≡ hertz self.now }
    {
        self.0
    }

    pub const fn as_khz(&self) -> u32
        ensures { result ≡ hertz self.now / 1000 }
    {
        self.as_hz() / HZ_PER_KHZ
    }

    pub const fn as_mhz(&self) -> u32
        ensures { result ≡ hertz self.now / 1000000 }
    {
        self.as_hz() / HZ_PER_MHZ
    }

    /// The time from one event to the next, rounded down to whole microseconds.
    pub fn as_duration(&self) -> Option<Duration>
        ensures { option_map micros result ≡ quotient 1000000 (hertz self.now) }
    {
        let period = MICROS_PER_SEC.checked_div(u64::from(self.as_hz()));
        period.map(Duration::from_micros)
    }

    pub fn checked_mul(self, rhs: u32) -> Option<Self>
        ensures { option_map hertz result ≡ fitting 32 (hertz self * rhs) }
    {
        self.as_hz().checked_mul(rhs).map(Self)
    }

    pub fn checked_div(self, rhs: u32) -> Option<Self>
        ensures { option_map hertz result ≡ quotient (hertz self) rhs }
    {
        self.as_hz().checked_div(rhs).map(Self)
    }

    /// How many times `rhs` goes into this rate.
    pub fn checked_ratio(self, rhs: Self) -> Option<u32>
        ensures { result ≡ quotient (hertz self) (hertz rhs) }
    {
        self.as_hz().checked_div(rhs.as_hz())
    }
}
