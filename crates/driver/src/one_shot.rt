// The driver of a timer that ends once.
ghost use Rattle.std.specs.Prelude.{false};
ghost use Rattle.base.specs.Refusals.{Accepted, outcome};
ghost use Rattle.driver.specs.Drives.{Makes, KeepsDue};
ghost use Rattle.driver.specs.declared.call.Call.TheVariants.{Schedule, DelayNanos, Finish, Stop};

use crate::Driver;
use base::error::Error;
use block::access::Block;
use time::Duration;
use timer::interface::Timer;

const NANOS_PER_MICRO: u32 = 1_000;

/// A timer that is scheduled once at a time, with the block that it is on.
pub type OneShotTimer<'a, K, B> = Driver<'a, K, B, false>;

impl<K: Timer, B: Block> OneShotTimer<'_, K, B> {
    /// Starts the timer, to end once after the duration. Where that is refused it stands.
    pub fn schedule(&mut self, timeout: Duration) -> Result<(), Error>
        ensures made { Makes K.Timer.kind B.Block.model self.old (Schedule timeout) (outcome result) self.new }
        ensures kept_due { KeepsDue K.Timer.kind B.Block.model self.old false }
    {
        self.arm(timeout)
    }

    /// Starts the timer, to end once after so many nanoseconds, rounded up to a whole microsecond. It does not wait.
    pub fn delay_nanos(&mut self, ns: u32) -> Result<(), Error>
        ensures made { Makes K.Timer.kind B.Block.model self.old (DelayNanos ns) (outcome result) self.new }
        ensures kept_due { KeepsDue K.Timer.kind B.Block.model self.old false }
    {
        self.schedule(Duration::from_micros(u64::from(ns.div_ceil(NANOS_PER_MICRO))))
    }

    /// Stops a timer that has ended and clears its interrupt; refused where no interrupt is pending.
    pub fn finish(&mut self) -> Result<(), Error>
        ensures { Makes K.Timer.kind B.Block.model self.old Finish (outcome result) self.new }
    {
        if !self.handle.is_interrupt_set(self.block) {
            return Err(Error::Unfinished);
        }
        self.stop();
        self.clear_interrupt();
        Ok(())
    }

    /// Stops the timer.
    pub fn stop(&mut self)
        ensures { Makes K.Timer.kind B.Block.model self.old Stop Accepted self.new }
    {
        self.handle.stop(self.block);
    }
}
