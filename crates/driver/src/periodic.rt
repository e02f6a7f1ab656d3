// The driver of a timer that ends again and again.
ghost use Rattle.std.specs.Prelude.{true};
ghost use Rattle.base.specs.Refusals.{outcome};
ghost use Rattle.driver.specs.Drives.{Makes, KeepsDue};
ghost use Rattle.driver.specs.declared.call.Call.TheVariants.{Start, Wait, Cancel};

use crate::Driver;
use base::error::Error;
use block::access::Block;
use time::Duration;
use timer::interface::Timer;

/// A timer that starts again by itself whenever it ends, with the block that it is on.
pub type PeriodicTimer<'a, K, B> = Driver<'a, K, B, true>;

impl<K: Timer, B: Block> PeriodicTimer<'_, K, B> {
    /// Starts the timer, to end whenever the period is over. Where that is refused it stands.
    pub fn start(&mut self, period: Duration) -> Result<(), Error>
        ensures made { Makes K.Timer.kind B.Block.model self.old (Start period) (outcome result) self.new }
        ensures kept_due { KeepsDue K.Timer.kind B.Block.model self.old true }
    {
        self.arm(period)
    }

    /// Clears the interrupt of a period that is over; refused where none is pending. It looks once and does not wait.
    pub fn wait(&mut self) -> Result<(), Error>
        ensures { Makes K.Timer.kind B.Block.model self.old Wait (outcome result) self.new }
    {
        if !self.handle.is_interrupt_set(self.block) {
            return Err(Error::Unfinished);
        }
        self.clear_interrupt();
        Ok(())
    }

    /// Stops the timer; refused where it does not run.
    pub fn cancel(&mut self) -> Result<(), Error>
        ensures { Makes K.Timer.kind B.Block.model self.old Cancel (outcome result) self.new }
    {
        if !self.handle.is_running(self.block) {
            return Err(Error::TimerInactive);
        }
        self.handle.stop(self.block);
        Ok(())
    }
}
