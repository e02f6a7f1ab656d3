// A place of a block: the index of one of its words.
ghost use Rattle.std.specs.Prelude.{◌≡◌, ◌<◌};
ghost use Rattle.block.specs.Places.{place_count, timer_place, group_place, system_place, alarm_place, watchdog_place, protection_place};

use base::numbers::{AlarmNumber, TimerNumber};
use base::registers::{
    AlarmRegister, GroupRegister, SystemRegister, TimerRegister, WatchdogRegister,
};

/// Outside this crate no place of a watchdog register or of its protection word can be made.
#[derive(Clone, Copy)]
pub struct Place {
    index: u8,
    ghost within: { index < place_count },
}

impl From<GroupRegister> for Place {
    ghost from_gives = { λ register place. place.index ≡ group_place register };

    fn from(register: GroupRegister) -> Place {
        let index = register as u8;
        Place { index }
    }
}

impl From<SystemRegister> for Place {
    ghost from_gives = { λ system place. place.index ≡ system_place system };

    fn from(system: SystemRegister) -> Place {
        let index = system as u8;
        Place { index }
    }
}

impl Place {
    pub fn timer(number: TimerNumber, register: TimerRegister) -> Place
        ensures { result.index ≡ timer_place number register }
    {
        Place {
            index: 9 * u8::from(number) + register as u8,
        }
    }

    pub fn alarm(number: AlarmNumber, register: AlarmRegister) -> Place
        ensures { result.index ≡ alarm_place number register }
    {
        let channel = u8::from(number);
        let index = match register {
            AlarmRegister::TargetHi => 34 + 2 * channel,
            AlarmRegister::TargetLo => 35 + 2 * channel,
            AlarmRegister::TargetConf => 40 + channel,
            AlarmRegister::CompLoad => 43 + channel,
        };
        Place { index }
    }

    // No `From`, which would be for all: these places are protected.
    pub(crate) fn watchdog(register: WatchdogRegister) -> Place
        ensures { result.index ≡ watchdog_place register }
    {
        Place {
            index: register as u8,
        }
    }

    /// The place WDTWPROTECT.
    pub(crate) fn protection() -> Place
        ensures { result.index ≡ protection_place }
    {
        Place { index: 25 }
    }

    /// Any place, protected ones too.
    pub(crate) fn at(index: u8) -> Place
        requires { index < place_count }
        ensures { result.index ≡ index }
    {
        Place { index }
    }

    /// The place's number in a write list.
    pub fn index(self) -> u8
        ensures value { result ≡ self.index }
        ensures within { result < place_count }
    {
        self.index
    }
}
