// What can be asked of a timer or an alarm.
use driver::call::Call as DriverCall;
use time::Duration;
use timer::part::Part;

/// A call of a kind of timer, without a driver.
#[derive(Clone, Copy)]
pub enum KindCall {
    Start,
    Stop,
    Reset,
    IsRunning,
    Now,
    LoadValue(Duration),
    EnableAutoReload(bool),
    Listen(bool),
    ClearInterrupt,
    IsInterruptSet,
}

/// A call with its argument, and whom it is made of.
#[derive(Clone, Copy)]
pub enum Call {
    Driver(DriverCall),
    Kind(KindCall),
}

/// A call and the part that it is made on.
#[derive(Clone, Copy)]
pub struct Request {
    pub part: Part,
    pub call: Call,
}
