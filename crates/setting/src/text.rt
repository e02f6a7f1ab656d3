// The settings as text, a line for each part.
ghost use Rattle.std.specs.Prelude.{Some, codes, decimal};
ghost use Rattle.std.specs.Fmt.{◌++?◌};
ghost use Rattle.setting.specs.Watchdogs.{action_number};
ghost use Rattle.setting.specs.Texts.{timing_text, timer_text, watchdog_text, settings_text};

use crate::kinds::{Settings, StageAction, Stages, TimerSetting, Timing, WatchdogSetting};
use std::fmt;

impl fmt::Display for Timing {
    ghost output = { λ t. Some (timing_text t) };

    fn fmt<W: fmt::Write>(&self, f: &mut fmt::Formatter<W>) -> fmt::Result {
        match self {
            Timing::Idle => write!(f, "idle"),
            Timing::Once(ticks) => write!(f, "once {ticks}"),
            Timing::Again(ticks) => write!(f, "again {ticks}"),
        }
    }
}

impl fmt::Display for TimerSetting {
    ghost output = { λ s. Some (timer_text s) };

    fn fmt<W: fmt::Write>(&self, f: &mut fmt::Formatter<W>) -> fmt::Result {
        write!(f, "{} {}", self.timing, u8::from(self.listening))
    }
}

impl fmt::Display for StageAction {
    ghost output = { λ a. Some (decimal (action_number a)) };

    fn fmt<W: fmt::Write>(&self, f: &mut fmt::Formatter<W>) -> fmt::Result {
        write!(f, "{}", u8::from(*self))
    }
}

impl<T: fmt::Display> fmt::Display for Stages<T> {
    ghost output = { λ s. T.output s.stage0 ++? Some (codes " ") ++? T.output s.stage1 ++? Some (codes " ") ++? T.output s.stage2 ++? Some (codes " ") ++? T.output s.stage3 };

    fn fmt<W: fmt::Write>(&self, f: &mut fmt::Formatter<W>) -> fmt::Result {
        let Stages {
            stage0,
            stage1,
            stage2,
            stage3,
        } = self;
        write!(f, "{stage0} {stage1} {stage2} {stage3}")
    }
}

impl fmt::Display for WatchdogSetting {
    ghost output = { λ s. Some (watchdog_text s) };

    fn fmt<W: fmt::Write>(&self, f: &mut fmt::Formatter<W>) -> fmt::Result {
        let enabled = u8::from(self.enabled);
        write!(
            f,
            "{enabled} {} {} {}",
            self.actions, self.prescaler, self.holds
        )
    }
}

impl fmt::Display for Settings {
    ghost output = { λ s. Some (settings_text s) };

    fn fmt<W: fmt::Write>(&self, f: &mut fmt::Formatter<W>) -> fmt::Result {
        writeln!(f, "timer 0 {}", self.timer0)?;
        if let Some(timer1) = self.timer1 {
            writeln!(f, "timer 1 {timer1}")?;
        }
        writeln!(f, "alarm 0 {}", self.alarm0)?;
        writeln!(f, "alarm 1 {}", self.alarm1)?;
        writeln!(f, "alarm 2 {}", self.alarm2)?;
        write!(f, "watchdog {}", self.watchdog)
    }
}
