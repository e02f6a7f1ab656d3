// The kind of the group timers.
ghost use Rattle.std.specs.Prelude.{◌≡◌, ◌/◌, ◌^◌, ◌≤◌, [], ◌∷◌};
ghost use Rattle.time.specs.Counts.{micros};
ghost use Rattle.base.specs.Bits.{field};
ghost use Rattle.base.specs.Numbers.{timer_number};
ghost use Rattle.block.specs.Places.{timer_place};
ghost use Rattle.timg.specs.Rates.{divisor, ticks_at, time_at};
ghost use Rattle.timg.specs.Steps.{reset_ops, stays_armed};
ghost use Rattle.base.specs.declared.registers.TimerRegister.TheVariants.{Update};
ghost use Rattle.operation.specs.Operations.{Performed, Write};
ghost use Rattle.timg.specs.GroupKind.{group_kind, number};

use base::bits::is_set;
use base::error::Error;
use base::registers::{GroupRegister, TimerRegister};
use base::two_words::TwoWords;
use block::access::Block;
use block::parts::TimerHandle;
use block::place::Place;
use operation::{read, switch, write};
use time::{Duration, Instant};
use timer::interface::Timer;

// The bits of CONFIG.
const EN: u8 = 31;

const INCREASE: u8 = 30;

const AUTORELOAD: u8 = 29;

const LEVEL_INT_EN: u8 = 11;

const ALARM_EN: u8 = 10;

/// A group timer, by its handle.
#[derive(Drop)]
pub struct GroupTimer {
    handle: TimerHandle,
}

impl GroupTimer {
    pub fn new(handle: TimerHandle) -> GroupTimer
        ensures { number result ≡ handle.number }
    {
        GroupTimer { handle }
    }

    fn place(&self, register: TimerRegister) -> Place
        ensures { result.index ≡ timer_place (number self.now) register }
    {
        Place::timer(self.handle.number(), register)
    }

    // The timer's bit of the words that the timers share.
    fn bit(&self) -> u32
        ensures { result ≡ 2 ^ timer_number (number self.now) }
    {
        1 << u8::from(self.handle.number())
    }

    // Latches the count; no word is stored at UPDATE.
    #[tactic(auto, using(operation::proofs::Joined::ignored))]
    fn latch<B: Block>(&self, block: &mut B)
        ensures did { Performed B.Block.model block.old (Write (timer_place (number self.now) Update) 0x80000000 ∷ []) block.new }
        ensures same { B.Block.model.means block.new ≡ B.Block.model.means block.old }
    {
        write(block, self.place(TimerRegister::Update), 0x8000_0000);
    }

    // Loads the count with 0.
    fn reset_counter<B: Block>(&self, block: &mut B)
        ensures { Performed B.Block.model block.old (reset_ops (number self.now)) block.new }
    {
        write(block, self.place(TimerRegister::LoadLo), 0);
        write(block, self.place(TimerRegister::LoadHi), 0);
        write(block, self.place(TimerRegister::Load), 1);
    }
}

// What the clock is divided by, from the field DIVIDER of CONFIG.
fn divider(config: u32) -> u32
    ensures value { result ≡ divisor (field config 13 16) }
    ensures positive { 1 ≤ result }
{
    match (config >> 13) % 0x1_0000 {
        0 => 65_536,
        1 | 2 => 2,
        n => n,
    }
}

/// The ticks of a duration at a clock in Hz and under the divider of CONFIG, if their reckoning fits in 64 bits.
pub fn timeout_to_ticks(timeout: Duration, clock: u32, config: u32) -> Option<u64>
    ensures { result ≡ ticks_at (clock / divisor (field config 13 16)) (micros timeout) }
{
    let ticks_per_sec = u64::from(clock / divider(config));
    let product = timeout.as_micros().checked_mul(ticks_per_sec)?;
    Some(product / 1_000_000)
}

// The time of a count; `rate` is 0 for no chip within the limits of a profile.
fn ticks_to_instant(ticks: u64, rate: u32) -> Result<Instant, Error>
    ensures { result ≡ time_at rate ticks }
{
    let period = 1_000_000_000_000_u64
        .checked_div(u64::from(rate))
        .unwrap_or(0);
    let product = ticks.checked_mul(period).ok_or(Error::OutOfRange)?;
    Ok(Instant::from_micros(product / 1_000_000))
}

// Whether the alarm is armed after a clear, by CONFIG. A delay that runs keeps its alarm, or it would never end.
fn stays_armed(config: u32) -> bool
    ensures { result ≡ stays_armed config }
{
    is_set(config, AUTORELOAD) || (is_set(config, EN) && is_set(config, ALARM_EN))
}

impl Timer for GroupTimer {
    ghost kind = { group_kind };

    fn start<B: Block>(&mut self, block: &mut B) {
        let config = self.place(TimerRegister::Config);
        switch(block, config, 1 << EN, false);
        switch(block, config, 1 << ALARM_EN, false);
        self.reset_counter(block);
        switch(block, config, 1 << INCREASE, true);
        switch(block, config, 1 << EN, true);
        switch(block, config, 1 << ALARM_EN, true);
    }

    fn stop<B: Block>(&mut self, block: &mut B) {
        switch(block, self.place(TimerRegister::Config), 1 << EN, false);
    }

    fn reset<B: Block>(&mut self, block: &mut B) {
        self.reset_counter(block);
    }

    fn is_running<B: Block>(&mut self, block: &mut B) -> bool {
        is_set(read(block, self.place(TimerRegister::Config)), EN)
    }

    fn now<B: Block>(&mut self, block: &mut B) -> Result<Instant, Error> {
        let clock = block.chip().clock;
        self.latch(block);
        let valid = read(block, Place::from(GroupRegister::Valid));
        if !is_set(valid, u8::from(self.handle.number())) {
            return Err(Error::Unfinished);
        }
        let low = read(block, self.place(TimerRegister::Lo));
        let high = read(block, self.place(TimerRegister::Hi));
        let config = read(block, self.place(TimerRegister::Config));
        let ticks = u64::from(TwoWords { high, low });
        ticks_to_instant(ticks, clock / divider(config))
    }

    fn load_value<B: Block>(&mut self, block: &mut B, value: Duration) -> Result<(), Error> {
        let clock = block.chip().clock;
        let config = read(block, self.place(TimerRegister::Config));
        let Some(ticks) = timeout_to_ticks(value, clock, config) else {
            return Err(Error::InvalidTimeout);
        };
        let TwoWords { high, low } = TwoWords::from(ticks);
        write(block, self.place(TimerRegister::AlarmLo), low);
        write(block, self.place(TimerRegister::AlarmHi), high);
        Ok(())
    }

    fn enable_auto_reload<B: Block>(&mut self, block: &mut B, auto_reload: bool) {
        let config = self.place(TimerRegister::Config);
        switch(block, config, 1 << AUTORELOAD, auto_reload);
    }

    fn enable_interrupt<B: Block>(&mut self, block: &mut B, state: bool) {
        let (at, bit) = if block.chip().level {
            (self.place(TimerRegister::Config), 1 << LEVEL_INT_EN)
        } else {
            (Place::from(GroupRegister::IntEna), self.bit())
        };
        switch(block, at, bit, state);
    }

    fn clear_interrupt<B: Block>(&mut self, block: &mut B) {
        write(block, Place::from(GroupRegister::IntClr), self.bit());
        let config = self.place(TimerRegister::Config);
        let armed = stays_armed(read(block, config));
        switch(block, config, 1 << ALARM_EN, armed);
    }

    fn is_interrupt_set<B: Block>(&mut self, block: &mut B) -> bool {
        let raw = read(block, Place::from(GroupRegister::IntRaw));
        is_set(raw, u8::from(self.handle.number()))
    }
}
