// The rates of a chip.
ghost use Rattle.std.specs.Prelude.{◌≡◌};
ghost use Rattle.base.specs.Chips.{clock_mhz, system_mhz};

use crate::chip::{Chip, Ratio};

impl Chip {
    /// The ticks of the timer clock in a microsecond, cut to whole ones.
    pub fn clock_mhz(&self) -> u32
        ensures { result ≡ clock_mhz self.now }
    {
        self.clock / 1_000_000
    }

    /// The ticks of the system count in a microsecond, cut to whole ones.
    pub fn system_mhz(&self) -> u64
        ensures { result ≡ system_mhz self.now }
    {
        let crystal = u64::from(self.crystal);
        let hz = match self.ratio {
            Ratio::FourTenths => crystal * 4 / 10,
            Ratio::Half => crystal / 2,
        };
        hz / 1_000_000
    }
}
