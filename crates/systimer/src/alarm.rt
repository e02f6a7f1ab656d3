// The kind of the alarms.
ghost use Rattle.std.specs.Prelude.{◌≡◌, ◌-◌, ◌^◌, ◌<◌, [], ◌∷◌};
ghost use Rattle.time.specs.Counts.{micros};
ghost use Rattle.base.specs.Numbers.{alarm_number};
ghost use Rattle.block.specs.Places.{alarm_place, system_place};
ghost use Rattle.base.specs.declared.registers.SystemRegister.TheVariants.{Conf};
ghost use Rattle.operation.specs.Operations.{Performed, switched};
ghost use Rattle.systimer.specs.Rates.{ticks_at};
ghost use Rattle.systimer.specs.Views.{can_read, read_of, instant_at};
ghost use Rattle.systimer.specs.AlarmKind.{alarm_kind, number};
ghost use Rattle.systimer.specs.Steps.{run_bit, own_bit, count_ops, period_ops, target_ops, count_after};

use base::bits::is_set;
use base::error::Error;
use base::registers::{AlarmRegister, GroupRegister, SystemRegister};
use base::two_words::TwoWords;
use block::access::Block;
use block::parts::AlarmHandle;
use block::place::Place;
use operation::{modify, read, switch, write};
use setting::readout::COUNT_MODULUS;
use time::{Duration, Instant};
use timer::interface::Timer;

// The period in TARGET_CONF, and the bit that selects it.
const PERIOD: u32 = 0x3FF_FFFF;

const PERIOD_MODE: u8 = 30;

// The bit of CONF by which the system count stands while core 0 does.
const STALL: u8 = 28;

// The bit of VALID by which the system count can be read.
const COUNT_VALID: u8 = 2;

/// An alarm, by its handle. It keeps the system count from which its last delay began, so that the delay can be told
/// from the target.
#[derive(Drop)]
pub struct Alarm {
    handle: AlarmHandle,
    origin: u64,
}

impl Alarm {
    pub fn new(handle: AlarmHandle) -> Alarm
        ensures number { number result ≡ handle.number }
        ensures origin { result.origin ≡ 0 }
    {
        Alarm { handle, origin: 0 }
    }

    /// The system count at the last accepted load of a delay, at first 0.
    pub fn origin(&self) -> u64
        ensures { result ≡ self.now.origin }
    {
        let Alarm { origin, .. } = self;
        *origin
    }

    fn place(&self, register: AlarmRegister) -> Place
        ensures { result.index ≡ alarm_place (number self.now) register }
    {
        Place::alarm(self.handle.number(), register)
    }

    // The alarm's bit of the words that the alarms share.
    fn bit(&self) -> u32
        ensures { result ≡ own_bit (number self.now) }
    {
        1 << u8::from(self.handle.number())
    }

    // Which bit of CONF the alarm runs by.
    fn run_index(&self) -> u8
        ensures { result ≡ 24 - alarm_number (number self.now) }
    {
        24 - u8::from(self.handle.number())
    }

    // Switches the alarm on or off.
    fn run<B: Block>(&self, block: &mut B, on: bool)
        ensures { Performed B.Block.model block.old (switched (system_place Conf) (run_bit (number self.now)) on ∷ []) block.new }
    {
        let conf = Place::from(SystemRegister::Conf);
        switch(block, conf, 1 << self.run_index(), on);
    }

    fn set_period<B: Block>(&self, block: &mut B, period: u32)
        ensures { Performed B.Block.model block.old (period_ops (number self.now) period) block.new }
    {
        let conf = self.place(AlarmRegister::TargetConf);
        modify(block, conf, !PERIOD, period);
        write(block, self.place(AlarmRegister::CompLoad), 1);
        // The period counts from the time the mode is entered.
        switch(block, conf, 1 << PERIOD_MODE, false);
        switch(block, conf, 1 << PERIOD_MODE, true);
    }

    fn set_target<B: Block>(&self, block: &mut B, target: u64)
        ensures { Performed B.Block.model block.old (target_ops (number self.now) target) block.new }
    {
        let TwoWords { high, low } = TwoWords::from(target);
        write(block, self.place(AlarmRegister::TargetHi), high);
        write(block, self.place(AlarmRegister::TargetLo), low);
        write(block, self.place(AlarmRegister::CompLoad), 1);
    }
}

/// The ticks of a duration at so many in a microsecond: below 2^26 with repeat and 2^52 without, or none.
pub fn timeout_to_ticks(timeout: Duration, ticks_per_micro: u64, repeat: bool) -> Option<u64>
    ensures { result ≡ ticks_at ticks_per_micro repeat (micros timeout) }
{
    let limit = if repeat {
        u64::from(PERIOD) + 1
    } else {
        COUNT_MODULUS
    };
    let ticks = timeout.as_micros().checked_mul(ticks_per_micro)?;
    (ticks < limit).then_some(ticks)
}

// The time of a count; `ticks_per_micro` is 0 for no chip within the limits of a profile.
fn count_to_instant(count: u64, ticks_per_micro: u64) -> Instant
    ensures { result ≡ instant_at ticks_per_micro count }
{
    Instant::from_micros(count.checked_div(ticks_per_micro).unwrap_or(0))
}

// The system count. A second look at its low word must find the same, or it moved on between the looks.
#[tactic(auto, using(operation::proofs::Joined::ignored))]
fn read_count<B: Block>(block: &mut B) -> Result<u64, Error>
    ensures did { Performed B.Block.model block.old (count_ops (can_read (B.Block.model.means block.old))) block.new }
    ensures answer { result ≡ read_of (B.Block.model.means block.old) }
{
    write(block, Place::from(SystemRegister::Unit0Op), 0x4000_0000);
    if !is_set(read(block, Place::from(GroupRegister::Valid)), COUNT_VALID) {
        return Err(Error::Unfinished);
    }
    let low = read(block, Place::from(SystemRegister::Unit0Lo));
    let high = read(block, Place::from(SystemRegister::Unit0Hi));
    let again = read(block, Place::from(SystemRegister::Unit0Lo));
    if again != low {
        return Err(Error::Unfinished);
    }
    Ok(u64::from(TwoWords { high, low }))
}

/// The count so many ticks on; it runs modulo 2^52.
pub fn target_after(count: u64, ticks: u64) -> u64
    ensures value { result ≡ count_after count ticks }
    ensures fits { result < 2 ^ 52 }
{
    count.wrapping_add(ticks) % COUNT_MODULUS
}

impl Timer for Alarm {
    ghost kind = { alarm_kind };

    fn start<B: Block>(&mut self, block: &mut B) {
        self.run(block, true);
    }

    fn stop<B: Block>(&mut self, block: &mut B) {
        self.run(block, false);
    }

    fn reset<B: Block>(&mut self, block: &mut B) {
        let conf = Place::from(SystemRegister::Conf);
        switch(block, conf, 1 << STALL, false);
    }

    fn is_running<B: Block>(&mut self, block: &mut B) -> bool {
        let conf = read(block, Place::from(SystemRegister::Conf));
        is_set(conf, self.run_index())
    }

    fn now<B: Block>(&mut self, block: &mut B) -> Result<Instant, Error> {
        let ticks_per_micro = block.chip().system_mhz();
        let count = read_count(block)?;
        Ok(count_to_instant(count, ticks_per_micro))
    }

    fn load_value<B: Block>(&mut self, block: &mut B, value: Duration) -> Result<(), Error> {
        let ticks_per_micro = block.chip().system_mhz();
        let conf = read(block, self.place(AlarmRegister::TargetConf));
        let repeat = is_set(conf, PERIOD_MODE);
        let Some(ticks) = timeout_to_ticks(value, ticks_per_micro, repeat) else {
            return Err(Error::InvalidTimeout);
        };
        if repeat {
            self.set_period(block, ticks as u32);
            return Ok(());
        }
        let count = read_count(block)?;
        self.set_target(block, target_after(count, ticks));
        self.origin = count;
        Ok(())
    }

    fn enable_auto_reload<B: Block>(&mut self, block: &mut B, auto_reload: bool) {
        let conf = self.place(AlarmRegister::TargetConf);
        switch(block, conf, 1 << PERIOD_MODE, auto_reload);
    }

    fn enable_interrupt<B: Block>(&mut self, block: &mut B, state: bool) {
        let at = Place::from(SystemRegister::IntEna);
        switch(block, at, self.bit(), state);
    }

    fn clear_interrupt<B: Block>(&mut self, block: &mut B) {
        write(block, Place::from(SystemRegister::IntClr), self.bit());
    }

    fn is_interrupt_set<B: Block>(&mut self, block: &mut B) -> bool {
        let raw = read(block, Place::from(SystemRegister::IntRaw));
        is_set(raw, u8::from(self.handle.number()))
    }
}
