ghost use Rattle.std.specs.Prelude.{◌≡◌, ◌+◌, ◌-◌, ◌%◌, ◌^◌, Some};
ghost use Rattle.std.specs.Option.{option_map};
ghost use Rattle.time.specs.Counts.{micros, since_epoch};
ghost use Rattle.time.specs.Fit.{difference, fitting};
ghost use Rattle.time.specs.Shown.{instant_text};

use crate::duration::Duration;
use std::fmt;

/// A point in time, in whole microseconds since the system started.
#[derive(Clone, Copy, PartialEq, Eq, PartialOrd, Ord)]
pub struct Instant(u64);

impl fmt::Display for Instant {
    ghost output = { λ i. Some (instant_text (since_epoch i)) };

    fn fmt<W: fmt::Write>(&self, f: &mut fmt::Formatter<W>) -> fmt::Result {
        write!(f, "{} µs since epoch", self.0)
    }
}

impl Instant {
    /// The moment at which the system started.
    pub const EPOCH: Self = Self(0);

    pub const fn from_micros(val: u64) -> Self
        ensures { since_epoch result ≡ val }
    {
        Self(val)
    }

    pub const fn duration_since_epoch(&self) -> Duration
        ensures { micros result ≡ since_epoch self.now }
    {
        Duration::from_micros(self.0)
    }

    pub fn checked_add(self, rhs: Duration) -> Option<Self>
        ensures { option_map since_epoch result ≡ fitting 64 (since_epoch self + micros rhs) }
    {
        self.0.checked_add(rhs.as_micros()).map(Self)
    }

    pub fn checked_sub(self, rhs: Duration) -> Option<Self>
        ensures { option_map since_epoch result ≡ difference (since_epoch self) (micros rhs) }
    {
        self.0.checked_sub(rhs.as_micros()).map(Self)
    }

    /// The time from `rhs` to this instant. It wraps, as the counter that instants are read from does.
    pub const fn wrapping_sub(self, rhs: Self) -> Duration
        ensures { micros result ≡ (since_epoch self + 2 ^ 64 - since_epoch rhs) % 2 ^ 64 }
    {
        Duration::from_micros(self.0.wrapping_sub(rhs.0))
    }
}
