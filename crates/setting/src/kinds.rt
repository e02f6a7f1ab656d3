// The settings of the parts, as values of their own.

/// What a timer or an alarm does, with the ticks until it is due.
#[derive(Clone, Copy, PartialEq, Eq)]
pub enum Timing {
    Idle,
    Once(u64),
    Again(u64),
}

/// What a timer or an alarm is set to.
#[derive(Clone, Copy, PartialEq, Eq)]
pub struct TimerSetting {
    pub timing: Timing,
    /// whether its interrupt is enabled
    pub listening: bool,
}

/// What the watchdog does at the end of a stage, by the number in the stage's two bits.
#[derive(Clone, Copy, PartialEq, Eq)]
pub enum StageAction {
    Off = 0,
    Interrupt = 1,
    ResetCpu = 2,
    ResetSystem = 3,
}

impl From<StageAction> for u8 {
    ghost use Rattle.std.specs.Prelude.{◌≡◌};
    ghost use Rattle.setting.specs.Watchdogs.{action_number};

    ghost from_gives = { λ action number. number ≡ action_number action };

    fn from(action: StageAction) -> u8 {
        action as u8
    }
}

/// One value for each of the watchdog's four stages.
#[derive(Clone, Copy, PartialEq, Eq)]
pub struct Stages<T> {
    pub stage0: T,
    pub stage1: T,
    pub stage2: T,
    pub stage3: T,
}

/// What the watchdog does at the end of each stage.
pub type Actions = Stages<StageAction>;

/// How many prescaled ticks each stage lasts.
pub type Holds = Stages<u32>;

/// What the watchdog is set to; the prescaler belongs to all four stages.
#[derive(Clone, Copy, PartialEq, Eq)]
pub struct WatchdogSetting {
    pub enabled: bool,
    pub actions: Actions,
    pub prescaler: u16,
    pub holds: Holds,
}

/// What every part of a block is set to; a chip with one timer has no timer 1.
#[derive(Clone, Copy, PartialEq, Eq)]
pub struct Settings {
    pub timer0: TimerSetting,
    pub timer1: Option<TimerSetting>,
    pub alarm0: TimerSetting,
    pub alarm1: TimerSetting,
    pub alarm2: TimerSetting,
    pub watchdog: WatchdogSetting,
}

/// The system count at which each alarm's delay began: the due of a delay counts from there.
#[derive(Clone, Copy, Default)]
pub struct Origins {
    pub alarm0: u64,
    pub alarm1: u64,
    pub alarm2: u64,
}
