// The calls of the drivers as values.
use time::Duration;

/// A call of a driver with its argument.
#[derive(Clone, Copy)]
pub enum Call {
    /// end once after the duration
    Schedule(Duration),
    /// end once after so many nanoseconds
    DelayNanos(u32),
    /// stop a timer that has ended
    Finish,
    /// stop the timer
    Stop,
    /// end whenever the duration is over
    Start(Duration),
    /// clear the interrupt of a period that is over
    Wait,
    /// stop a timer that runs
    Cancel,
    /// clear the interrupt
    ClearInterrupt,
    /// pass the interrupt on, or not
    Listen(bool),
}
