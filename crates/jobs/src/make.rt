// A call of a driver, made by a driver for that call.
ghost use Rattle.base.specs.Refusals.{outcome};
ghost use Rattle.driver.specs.Drives.{Made};

use base::error::Error;
use block::access::Block;
use driver::call::Call;
use driver::one_shot::OneShotTimer;
use driver::periodic::PeriodicTimer;
use timer::interface::Timer;

/// Makes a driver of the handle and the block, makes the call, and gives the driver up again.
pub fn make<K: Timer, B: Block>(handle: &mut K, block: &mut B, call: Call) -> Result<(), Error>
    ensures { Made K.Timer.kind B.Block.model handle.old block.old call (outcome result) handle.new block.new }
{
    // A call is data, read from a text: told apart here, once.
    match call {
        Call::Schedule(timeout) => OneShotTimer::new(handle, block).schedule(timeout)?,
        Call::DelayNanos(ns) => OneShotTimer::new(handle, block).delay_nanos(ns)?,
        Call::Finish => OneShotTimer::new(handle, block).finish()?,
        Call::Stop => OneShotTimer::new(handle, block).stop(),
        Call::Start(period) => PeriodicTimer::new(handle, block).start(period)?,
        Call::Wait => PeriodicTimer::new(handle, block).wait()?,
        Call::Cancel => PeriodicTimer::new(handle, block).cancel()?,
        Call::ClearInterrupt => OneShotTimer::new(handle, block).clear_interrupt(),
        Call::Listen(state) => OneShotTimer::new(handle, block).listen(state),
    }
    Ok(())
}
