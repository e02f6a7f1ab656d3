// The timers and alarms of one block, and the steps of a job on them.
ghost use Rattle.std.specs.Prelude.{◌≡◌};
ghost use Rattle.base.specs.Refusals.{outcome};
ghost use Rattle.jobs.specs.Steps.{Stepped, bench_of, origins_of};

use crate::make::make;
use base::error::Error;
use base::numbers::{AlarmNumber, TimerNumber};
use block::access::Block;
use block::parts::Handles;
use driver::call::Call;
use setting::kinds::Origins;
use systimer::alarm::Alarm;
use timer::interface::Timer;
use timg::group_timer::GroupTimer;

/// A call on a timer or an alarm.
#[derive(Clone, Copy)]
pub enum Step {
    Timer(TimerNumber, Call),
    Alarm(AlarmNumber, Call),
}

/// The handles of a block's timers and alarms, of whatever kinds. A block with one timer has none for timer 1.
// The fields are those of `Handles` and `Settings`, but a type's methods and its printing lie in its own crate.
#[derive(Drop)]
pub struct Bench<T, A> {
    pub timer0: T,
    pub timer1: Option<T>,
    pub alarm0: A,
    pub alarm1: A,
    pub alarm2: A,
}

impl<T: Timer, A: Timer> Bench<T, A> {
    /// Makes the step's call with the handle of its part; refused where the block has no such part.
    pub fn perform<B: Block>(&mut self, block: &mut B, step: Step) -> Result<(), Error>
        ensures { Stepped T.Timer.kind A.Timer.kind B.Block.model self.old block.old step (outcome result) self.new block.new }
    {
        match step {
            Step::Timer(TimerNumber::Zero, call) => make(&mut self.timer0, block, call),
            Step::Timer(TimerNumber::One, call) => {
                make(self.timer1.as_mut().ok_or(Error::NoSuchPart)?, block, call)
            }
            Step::Alarm(AlarmNumber::Zero, call) => make(&mut self.alarm0, block, call),
            Step::Alarm(AlarmNumber::One, call) => make(&mut self.alarm1, block, call),
            Step::Alarm(AlarmNumber::Two, call) => make(&mut self.alarm2, block, call),
        }
    }
}

impl Bench<GroupTimer, Alarm> {
    /// The group timers and the alarms of a block, by its handles.
    pub fn new(handles: Handles) -> Self
        ensures { result ≡ bench_of handles }
    {
        Bench {
            timer0: GroupTimer::new(handles.timer0),
            timer1: handles.timer1.map(GroupTimer::new),
            alarm0: Alarm::new(handles.alarm0),
            alarm1: Alarm::new(handles.alarm1),
            alarm2: Alarm::new(handles.alarm2),
        }
    }

    /// The counts that the alarms' delays began at.
    pub fn origins(&self) -> Origins
        ensures { result ≡ origins_of self.now }
    {
        Origins {
            alarm0: self.alarm0.origin(),
            alarm1: self.alarm1.origin(),
            alarm2: self.alarm2.origin(),
        }
    }
}
