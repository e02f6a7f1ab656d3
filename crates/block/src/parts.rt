// The parts of a block and their handles.
ghost use Rattle.std.specs.Prelude.{◌≡◌};
ghost use Rattle.block.specs.Parts.{handles_of};

use base::chip::Chip;
use base::numbers::{AlarmNumber, TimerNumber};

/// The right to use the part with this number. Only making a block gives one, and it cannot be copied.
#[derive(Drop)]
pub struct Handle<N> {
    number: N,
}

/// The right to use a group timer.
pub type TimerHandle = Handle<TimerNumber>;

/// The right to use an alarm.
pub type AlarmHandle = Handle<AlarmNumber>;

impl<N: Copy> Handle<N> {
    pub fn number(&self) -> N
        ensures { result ≡ self.now.number }
    {
        self.number
    }
}

/// The right to use the watchdog.
#[derive(Drop)]
pub struct WatchdogHandle(());

/// One handle for each part of a block; a chip with one timer has none for timer 1.
#[derive(Drop)]
pub struct Handles {
    pub timer0: TimerHandle,
    pub timer1: Option<TimerHandle>,
    pub alarm0: AlarmHandle,
    pub alarm1: AlarmHandle,
    pub alarm2: AlarmHandle,
    pub watchdog: WatchdogHandle,
}

impl Handles {
    pub(crate) fn new(chip: &Chip) -> Handles
        ensures { result ≡ handles_of chip.now }
    {
        let timer1 = Handle {
            number: TimerNumber::One,
        };
        Handles {
            timer0: Handle {
                number: TimerNumber::Zero,
            },
            timer1: (chip.timers == 2).then_some(timer1),
            alarm0: Handle {
                number: AlarmNumber::Zero,
            },
            alarm1: Handle {
                number: AlarmNumber::One,
            },
            alarm2: Handle {
                number: AlarmNumber::Two,
            },
            watchdog: WatchdogHandle(()),
        }
    }
}
