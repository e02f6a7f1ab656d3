// The numbers of timers and alarms.
ghost use Rattle.std.specs.Prelude.{◌≡◌, ◌<◌};
ghost use Rattle.base.specs.Numbers.{timer_number, alarm_number};

/// Which of the two group timers.
#[derive(Clone, Copy)]
pub enum TimerNumber {
    Zero,
    One,
}

/// Which of the three alarms of the system timer.
#[derive(Clone, Copy)]
pub enum AlarmNumber {
    Zero,
    One,
    Two,
}

impl From<TimerNumber> for u8 {
    ghost from_gives = { λ timer number. (number ≡ timer_number timer) × (number < 2) };

    fn from(timer: TimerNumber) -> u8 {
        timer as u8
    }
}

impl From<AlarmNumber> for u8 {
    ghost from_gives = { λ alarm number. (number ≡ alarm_number alarm) × (number < 3) };

    fn from(alarm: AlarmNumber) -> u8 {
        alarm as u8
    }
}
