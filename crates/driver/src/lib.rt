// The drivers above every kind of timer, on any block.
#![tactic(auto, unfolding(timer::specs::Calls::meaning_after, timer::specs::Calls::handle_after, timer::specs::Calls::accesses_of))]

ghost use Rattle.std.specs.Prelude.{◌≡◌, false};
ghost use Rattle.base.specs.Refusals.{Accepted, outcome};
ghost use Rattle.timer.specs.Views.{with_run};
ghost use Rattle.driver.specs.Drives.{halt_asks, Drives, SameLoans, Makes, KeepsDue, arming};
ghost use Rattle.driver.specs.declared.call.Call.TheVariants.{ClearInterrupt, Listen};

pub mod call;
pub mod one_shot;
pub mod periodic;

use base::error::Error;
use block::access::Block;
use time::Duration;
use timer::interface::Timer;

/// A timer with the block that it is on. With `REPEAT` it starts again by itself whenever it ends, without it ends once.
#[derive(Drop)]
pub struct Driver<'a, K, B, const REPEAT: bool> {
    handle: &'a mut K,
    block: &'a mut B,
}

impl<'a, K: Timer, B: Block, const REPEAT: bool> Driver<'a, K, B, REPEAT> {
    /// The driver of this handle on this block; nothing is asked of either. When the driver is given up, both are the
    /// lender's again.
    pub fn new(handle: &'a mut K, block: &'a mut B) -> Self
        ensures held { (result.handle.now ≡ handle.old) × (result.block.now ≡ block.old) }
        ensures loans { SameLoans handle.entry block.entry result.handle result.block }
    {
        Self { handle, block }
    }

    /// Clears the timer's interrupt.
    pub fn clear_interrupt(&mut self)
        ensures { Makes K.Timer.kind B.Block.model self.old ClearInterrupt Accepted self.new }
    {
        self.handle.clear_interrupt(self.block);
    }

    /// Passes the timer's interrupt on, or not.
    pub fn listen(&mut self, state: bool)
        ensures { Makes K.Timer.kind B.Block.model self.old (Listen state) Accepted self.new }
    {
        self.handle.enable_interrupt(self.block, state);
    }

    // Stops a timer that runs.
    fn halt(&mut self)
        ensures made { let v = K.Timer.kind.view self.old.handle.now (B.Block.model.means self.old.block.now) in
            Drives K.Timer.kind B.Block.model self.old.handle.now self.old.block.now (halt_asks v) (with_run false v) self.new.handle.now self.new.block.now }
        ensures loans { SameLoans self.old.handle self.old.block self.new.handle self.new.block }
    {
        if self.handle.is_running(self.block) {
            self.handle.stop(self.block);
        }
    }

    // Makes a timer due after the duration, once or again and again, and starts it. Where the load is refused, the timer
    // stands.
    fn arm(&mut self, timeout: Duration) -> Result<(), Error>
        ensures made { Makes K.Timer.kind B.Block.model self.old (arming REPEAT timeout) (outcome result) self.new }
        ensures kept_due { KeepsDue K.Timer.kind B.Block.model self.old REPEAT }
    {
        self.halt();
        self.clear_interrupt();
        self.handle.reset(self.block);
        self.handle.enable_auto_reload(self.block, REPEAT);
        // A timer that refuses the duration has nothing to run for, so it is not started.
        self.handle.load_value(self.block, timeout)?;
        self.handle.start(self.block);
        Ok(())
    }
}
