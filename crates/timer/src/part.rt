// The parts of a block.
use base::numbers::{AlarmNumber, TimerNumber};

/// A part: what one handle is for.
#[derive(Clone, Copy)]
pub enum Part {
    Timer(TimerNumber),
    Alarm(AlarmNumber),
    Watchdog,
}
