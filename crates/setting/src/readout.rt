// Reading the settings off a block's words.
ghost use Rattle.std.specs.Prelude.{◌≡◌, ℕ, ◌+◌, ◌*◌, ◌^◌, ◌<◌, slice_index};
ghost use Rattle.base.specs.Bits.{field};
ghost use Rattle.setting.specs.Timings.{timing_of, timer_due, timer_listening, timer_setting, count_difference, alarm_due, alarm_setting};
ghost use Rattle.setting.specs.Watchdogs.{action_of, actions_of, watchdog_setting};
ghost use Rattle.setting.specs.Readouts.{settings_of};

use crate::kinds::{
    Actions, Origins, Settings, StageAction, Stages, TimerSetting, Timing, WatchdogSetting,
};
use base::bits::is_set;
use base::chip::Chip;
use base::numbers::{AlarmNumber, TimerNumber};
use base::registers::{
    AlarmRegister, GroupRegister, SystemRegister, TimerRegister, WatchdogRegister,
};
use base::two_words::TwoWords;
use block::access::Block;
use block::place::Place;
use block::words::{Words, watchdog_word, word_at};

/// The system count runs modulo 2^52.
pub const COUNT_MODULUS: u64 = 1 << 52;

fn timing(run: bool, repeat: bool, due: u64) -> Timing
    ensures { result ≡ timing_of run repeat due }
{
    match (run, repeat) {
        (false, _) => Timing::Idle,
        (true, false) => Timing::Once(due),
        (true, true) => Timing::Again(due),
    }
}

// How far the system count runs from `origin` to `target`.
fn count_between(origin: u64, target: u64) -> u64
    ensures { result ≡ count_difference target origin }
{
    target.wrapping_sub(origin) % COUNT_MODULUS
}

// The action in the two bits of WDTCONFIG0 from `low` on. A `From` would drop bits, a `TryFrom` would never refuse.
fn action_at(config: u32, low: u8) -> StageAction
    requires { low < 32 }
    ensures { result ≡ action_of (field config low 2) }
{
    match (config >> low) % 4 {
        0 => StageAction::Off,
        1 => StageAction::Interrupt,
        2 => StageAction::ResetCpu,
        _ => StageAction::ResetSystem,
    }
}

fn actions(config: u32) -> Actions
    ensures { result ≡ actions_of config }
{
    Stages {
        stage0: action_at(config, 29),
        stage1: action_at(config, 27),
        stage2: action_at(config, 25),
        stage3: action_at(config, 23),
    }
}

fn timer_due(words: &Words, number: TimerNumber) -> u64
    ensures { result ≡ timer_due number words.now }
{
    let high = word_at(words, Place::timer(number, TimerRegister::AlarmHi));
    let low = word_at(words, Place::timer(number, TimerRegister::AlarmLo));
    u64::from(TwoWords { high, low })
}

fn timer_listens(chip: &Chip, words: &Words, number: TimerNumber) -> bool
    ensures { result ≡ timer_listening chip.now number words.now }
{
    if chip.level {
        let config = word_at(words, Place::timer(number, TimerRegister::Config));
        is_set(config, 11)
    } else {
        let enabled = word_at(words, Place::from(GroupRegister::IntEna));
        is_set(enabled, u8::from(number))
    }
}

/// The setting of a group timer.
pub fn timer_setting(chip: &Chip, words: &Words, number: TimerNumber) -> TimerSetting
    ensures { result ≡ timer_setting chip.now number words.now }
{
    let config = word_at(words, Place::timer(number, TimerRegister::Config));
    TimerSetting {
        timing: timing(
            is_set(config, 31),
            is_set(config, 29),
            timer_due(words, number),
        ),
        listening: timer_listens(chip, words, number),
    }
}

fn alarm_due(words: &Words, number: AlarmNumber, origin: u64) -> u64
    ensures { result ≡ alarm_due origin number words.now }
{
    let conf = word_at(words, Place::alarm(number, AlarmRegister::TargetConf));
    if is_set(conf, 30) {
        u64::from(conf % 0x400_0000)
    } else {
        let high = word_at(words, Place::alarm(number, AlarmRegister::TargetHi));
        let low = word_at(words, Place::alarm(number, AlarmRegister::TargetLo));
        count_between(origin, u64::from(TwoWords { high, low }))
    }
}

/// The setting of an alarm whose delay began at the system count `origin`.
pub fn alarm_setting(words: &Words, number: AlarmNumber, origin: u64) -> TimerSetting
    ensures { result ≡ alarm_setting origin number words.now }
{
    let channel = u8::from(number);
    let running = word_at(words, Place::from(SystemRegister::Conf));
    let conf = word_at(words, Place::alarm(number, AlarmRegister::TargetConf));
    let enabled = word_at(words, Place::from(SystemRegister::IntEna));
    TimerSetting {
        timing: timing(
            is_set(running, 24 - channel),
            is_set(conf, 30),
            alarm_due(words, number, origin),
        ),
        listening: is_set(enabled, channel),
    }
}

/// The setting of the watchdog.
pub fn watchdog_setting(words: &Words) -> WatchdogSetting
    ensures { result ≡ watchdog_setting words.now }
{
    let config = watchdog_word(words, WatchdogRegister::Config0);
    let prescaler = watchdog_word(words, WatchdogRegister::Config1) >> 16;
    WatchdogSetting {
        enabled: is_set(config, 31),
        actions: actions(config),
        prescaler: prescaler as u16,
        holds: Stages {
            stage0: watchdog_word(words, WatchdogRegister::Config2),
            stage1: watchdog_word(words, WatchdogRegister::Config3),
            stage2: watchdog_word(words, WatchdogRegister::Config4),
            stage3: watchdog_word(words, WatchdogRegister::Config5),
        },
    }
}

/// The settings of every part of a block, read without an access.
pub fn settings<B: Block>(block: &B, origins: Origins) -> Settings
    ensures { result ≡ settings_of (B.Block.model.means block.now) origins }
{
    let chip = block.chip();
    let words = block.words();
    let timer1 = timer_setting(&chip, &words, TimerNumber::One);
    Settings {
        timer0: timer_setting(&chip, &words, TimerNumber::Zero),
        timer1: (chip.timers == 2).then_some(timer1),
        alarm0: alarm_setting(&words, AlarmNumber::Zero, origins.alarm0),
        alarm1: alarm_setting(&words, AlarmNumber::One, origins.alarm1),
        alarm2: alarm_setting(&words, AlarmNumber::Two, origins.alarm2),
        watchdog: watchdog_setting(&words),
    }
}
