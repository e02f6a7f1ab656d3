// A chip whose figures lie within the limits.
ghost use Rattle.base.specs.Chips.{Rates, Timers, Resets, Valid, bench_chip};
ghost use Rattle.base.specs.Refusals.{Refused, refusal};
ghost use Rattle.std.specs.Prelude.{◌≡◌, [], Ok, Err};

use crate::chip::{Chip, Ratio, ResetWords};
use crate::error::Error;

// bits 31 and 11 of CONFIG: EN and LEVEL_INT_EN
const CONFIG_CLEAR: u32 = 0x8000_0800;

// bit 31 of WDTCONFIG0: EN
const WDTCONFIG0_CLEAR: u32 = 0x8000_0000;

// bits 22 to 24 of CONF: the alarms' switches
const CONF_CLEAR: u32 = 0x01C0_0000;

#[derive(Clone, Copy)]
pub struct Profile {
    chip: Chip,
    ghost rates: { Rates chip },
    ghost timers: { Timers chip },
    ghost resets: { Resets chip },
}

impl Profile {
    /// The profile of a chip, or a refusal where its figures lie outside the limits.
    pub fn new(chip: Chip) -> Result<Profile, Error>
        ensures { elim result [ Ok p ↦ (p.chip ≡ chip) × Valid chip | Err e ↦ (refusal e ≡ Refused 5 []) × (Valid chip → ⊥) ] }
    {
        if chip.clock < 1_000_000 || chip.crystal < 2_500_000 || chip.crystal > 1_000_000_000 {
            return Err(Error::BadProfile);
        }
        if chip.timers < 1 || chip.timers > 2 {
            return Err(Error::BadProfile);
        }
        let reset = chip.reset;
        if reset.config & CONFIG_CLEAR != 0
            || reset.wdtconfig0 & WDTCONFIG0_CLEAR != 0
            || reset.conf & CONF_CLEAR != 0
        {
            return Err(Error::BadProfile);
        }
        Ok(Profile { chip })
    }

    /// The chip that the bench unit plays where nothing else is asked for.
    pub fn bench() -> Profile
        ensures { result.chip ≡ bench_chip }
    {
        Profile {
            chip: Chip {
                clock: 80_000_000,
                crystal: 40_000_000,
                ratio: Ratio::FourTenths,
                timers: 2,
                level: false,
                confirm: false,
                divcnt: false,
                reset: ResetWords {
                    config: 0x6000_2000,
                    wdtconfig0: 0x0004_C000,
                    wdtconfig1: 0x0001_0000,
                    conf: 0x4600_0000,
                },
            },
        }
    }

    pub fn chip(&self) -> Chip
        ensures { result ≡ self.now.chip }
    {
        self.chip
    }
}
