// The interface of a kind of timer.
ghost use Rattle.std.specs.Prelude.{◌≡◌};
ghost use Rattle.time.specs.Counts.{micros};
ghost use Rattle.base.specs.Refusals.{outcome};
ghost use Rattle.timer.specs.Views.{load_outcome};
ghost use Rattle.timer.specs.Kinds.{Kind, Start, Stop, Reset, AskRunning, AskNow, Load, Reload, Listen, Clear, AskPending};
ghost use Rattle.timer.specs.Calls.{Called};

use base::error::Error;
use block::access::Block;
use time::{Duration, Instant};

/// A kind of timer, on the handle of a part, with the block beside it. `kind` says what a handle and a block mean, what
/// each call does to them, and proves what every kind owes.
pub trait Timer {
    ghost kind: { Kind Self };

    /// Starts the timer.
    fn start<B: Block>(&mut self, block: &mut B)
        ensures { Called kind B.Block.model self.old block.old Start self.new block.new };

    /// Stops the timer.
    fn stop<B: Block>(&mut self, block: &mut B)
        ensures { Called kind B.Block.model self.old block.old Stop self.new block.new };

    /// Makes the count start anew, where the kind has one of its own.
    fn reset<B: Block>(&mut self, block: &mut B)
        ensures { Called kind B.Block.model self.old block.old Reset self.new block.new };

    /// Whether the timer runs.
    fn is_running<B: Block>(&mut self, block: &mut B) -> bool
        ensures called { Called kind B.Block.model self.old block.old AskRunning self.new block.new }
        ensures answer { result ≡ (kind.view self.old (B.Block.model.means block.old)).run };

    /// The count as a time; refused where it can't be read or the time is too large.
    fn now<B: Block>(&mut self, block: &mut B) -> Result<Instant, Error>
        ensures called { Called kind B.Block.model self.old block.old AskNow self.new block.new }
        ensures answer { result ≡ kind.reads self.old (B.Block.model.means block.old) };

    /// Makes the timer due after the duration.
    fn load_value<B: Block>(&mut self, block: &mut B, value: Duration) -> Result<(), Error>
        ensures called { Called kind B.Block.model self.old block.old (Load (micros value)) self.new block.new }
        ensures answer { outcome result ≡ load_outcome (micros value) (kind.view self.old (B.Block.model.means block.old)) };

    /// Makes the timer start again by itself when it is due, or not.
    fn enable_auto_reload<B: Block>(&mut self, block: &mut B, auto_reload: bool)
        ensures { Called kind B.Block.model self.old block.old (Reload auto_reload) self.new block.new };

    /// Passes the timer's interrupt on, or not.
    fn enable_interrupt<B: Block>(&mut self, block: &mut B, state: bool)
        ensures { Called kind B.Block.model self.old block.old (Listen state) self.new block.new };

    /// Clears the interrupt.
    fn clear_interrupt<B: Block>(&mut self, block: &mut B)
        ensures { Called kind B.Block.model self.old block.old Clear self.new block.new };

    /// Whether the interrupt is pending.
    fn is_interrupt_set<B: Block>(&mut self, block: &mut B) -> bool
        ensures called { Called kind B.Block.model self.old block.old AskPending self.new block.new }
        ensures answer { result ≡ (kind.view self.old (B.Block.model.means block.old)).pending };
}
