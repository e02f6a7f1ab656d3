// A logged block with its timers and alarms, of which calls are made.
use crate::access_log::AccessLog;
use crate::answer::Answer;
use crate::call::{Call, KindCall, Request};
use crate::logged_block::LoggedBlock;
use base::error::Error;
use base::numbers::{AlarmNumber, TimerNumber};
use base::profile::Profile;
use block::place::Place;
use jobs::bench::Bench;
use jobs::make::make;
use systimer::alarm::Alarm;
use timer::interface::Timer;
use timer::part::Part;
use timg::group_timer::GroupTimer;

#[derive(Drop)]
pub struct LoggedBench {
    block: LoggedBlock,
    bench: Bench<GroupTimer, Alarm>,
}

impl LoggedBench {
    /// A new block of the profile, with its timers and alarms.
    pub fn new(profile: Profile) -> LoggedBench {
        let (block, handles) = LoggedBlock::new(profile);
        LoggedBench {
            block,
            bench: Bench::new(handles),
        }
    }

    /// What the hardware does by itself: the place holds the word.
    pub fn set(&mut self, at: Place, word: u32) {
        self.block.set(at, word);
    }

    /// Makes a call; no answer where the chip has no such timer or alarm.
    pub fn ask(&mut self, request: Request) -> Option<Result<Answer, Error>> {
        let Request { part, call } = request;
        let LoggedBench { block, bench } = self;
        block.forget();
        Some(match part {
            Part::Timer(TimerNumber::Zero) => ask(&mut bench.timer0, block, call),
            Part::Timer(TimerNumber::One) => ask(bench.timer1.as_mut()?, block, call),
            Part::Alarm(AlarmNumber::Zero) => ask(&mut bench.alarm0, block, call),
            Part::Alarm(AlarmNumber::One) => ask(&mut bench.alarm1, block, call),
            Part::Alarm(AlarmNumber::Two) => ask(&mut bench.alarm2, block, call),
            Part::Watchdog => return None,
        })
    }

    /// The accesses of the last call.
    pub fn log(&self) -> &AccessLog {
        self.block.log()
    }
}

fn ask<K: Timer>(handle: &mut K, block: &mut LoggedBlock, call: Call) -> Result<Answer, Error> {
    match call {
        Call::Driver(call) => make(handle, block, call).map(|()| Answer::Done),
        Call::Kind(call) => ask_kind(handle, block, call),
    }
}

fn ask_kind<K: Timer>(
    handle: &mut K,
    block: &mut LoggedBlock,
    call: KindCall,
) -> Result<Answer, Error> {
    match call {
        KindCall::IsRunning => return Ok(Answer::Flag(handle.is_running(block))),
        KindCall::IsInterruptSet => return Ok(Answer::Flag(handle.is_interrupt_set(block))),
        KindCall::Now => {
            let now = handle.now(block)?.duration_since_epoch();
            return Ok(Answer::Micros(now.as_micros()));
        }
        KindCall::LoadValue(value) => handle.load_value(block, value)?,
        KindCall::Start => handle.start(block),
        KindCall::Stop => handle.stop(block),
        KindCall::Reset => handle.reset(block),
        KindCall::EnableAutoReload(auto_reload) => handle.enable_auto_reload(block, auto_reload),
        KindCall::Listen(state) => handle.enable_interrupt(block, state),
        KindCall::ClearInterrupt => handle.clear_interrupt(block),
    }
    Ok(Answer::Done)
}
