// What the replay counts.
ghost use Rattle.std.specs.Prelude.{◌≡◌};
ghost use Rattle.vectors.specs.Tallies.{with_block, with_alike, with_departure};

use std::fmt;
use std::str::FromStr;

/// Where the port departs from the crate on purpose.
#[derive(Clone, Copy)]
pub enum Departure {
    /// A product past 64 bits is refused; the crate panics.
    OverflowRefused = 0,
    /// A delay that runs keeps its alarm at a clear; the crate switches it off.
    RunningDelayStaysArmed = 1,
    /// A count that can't be read is refused; the crate looks on for ever.
    UnreadableCountRefused = 2,
    /// A wait looks once and refuses; the crate looks on for ever.
    WaitLooksOnce = 3,
}

impl Departure {
    /// Every departure, in the order of a tally.
    pub const ALL: [Departure; 4] = [
        Departure::OverflowRefused,
        Departure::RunningDelayStaysArmed,
        Departure::UnreadableCountRefused,
        Departure::WaitLooksOnce,
    ];

    /// The name in the vectors and in a tally.
    pub fn name(self) -> &'static str {
        match self {
            Departure::OverflowRefused => "overflow-refused",
            Departure::RunningDelayStaysArmed => "running-delay-stays-armed",
            Departure::UnreadableCountRefused => "unreadable-count-refused",
            Departure::WaitLooksOnce => "wait-looks-once",
        }
    }
}

/// No departure has the name.
#[derive(Clone, Copy)]
pub struct NoDeparture;

impl FromStr for Departure {
    type Err = NoDeparture;

    fn from_str(name: &str) -> Result<Departure, NoDeparture> {
        Departure::ALL
            .into_iter()
            .find(|departure| departure.name() == name)
            .ok_or(NoDeparture)
    }
}

/// The number of blocks, of calls that were alike, and of those that departed, by departure.
#[derive(Default, Drop)]
pub struct Tally {
    blocks: u64,
    alike: u64,
    // an array, since a map could fail for want of memory
    departed: [u64; 4],
}

impl Tally {
    /// Counts a block.
    pub fn count_block(&mut self)
        ensures { self.new ≡ with_block self.old }
    {
        self.blocks = self.blocks.saturating_add(1);
    }

    /// Counts a call that was alike.
    pub fn count_alike(&mut self)
        ensures { self.new ≡ with_alike self.old }
    {
        self.alike = self.alike.saturating_add(1);
    }

    /// Counts a call that departed.
    pub fn count_departure(&mut self, departure: Departure)
        ensures { self.new ≡ with_departure departure self.old }
    {
        let departed = &mut self.departed[departure as usize];
        *departed = departed.saturating_add(1);
    }

    // Every call, alike or not.
    fn calls(&self) -> u64 {
        self.departed
            .into_iter()
            .fold(self.alike, u64::saturating_add)
    }
}

impl fmt::Display for Tally {
    fn fmt<W: fmt::Write>(&self, f: &mut fmt::Formatter<W>) -> fmt::Result {
        for (departure, departed) in Departure::ALL.into_iter().zip(self.departed) {
            writeln!(f, "departs {} {departed}", departure.name())?;
        }
        write!(
            f,
            "alike {}\ncalls {}\nblocks {}",
            self.alike,
            self.calls(),
            self.blocks
        )
    }
}
