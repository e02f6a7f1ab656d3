// Figures that the documents give, each the contract of a function that works it out. A generic one would state the rule
// again, and no figure.
#![tactic(auto)]

ghost use Rattle.std.specs.Prelude.{◌≡◌, ◌-◌, ◌*◌, ◌/◌, ◌^◌, Some, None};

use systimer::alarm::{target_after, timeout_to_ticks as alarm_ticks};
use time::Duration;
use timg::group_timer::timeout_to_ticks as timer_ticks;

const CLOCK: u32 = 80_000_000;

// CONFIG with DIVIDER 1, and with DIVIDER 0.
const BY_TWO: u32 = 0x6000_2000;

const BY_65536: u32 = 0x6000_0000;

const TICKS_PER_MICRO: u64 = 16;

/// 1,000 µs at 80 MHz and DIVIDER 1 are 40,000 ticks.
pub fn thousand_micros() -> Option<u64>
    ensures { result ≡ Some 40000 }
{
    timer_ticks(Duration::from_micros(1_000), CLOCK, BY_TWO)
}

/// The longest duration that has ticks there.
pub fn longest_delay() -> Option<u64>
    ensures { result ≡ Some (461168601842 * 40) }
{
    timer_ticks(Duration::from_micros(461_168_601_842), CLOCK, BY_TWO)
}

/// One microsecond more has none.
pub fn too_long_delay() -> Option<u64>
    ensures { result ≡ None }
{
    timer_ticks(Duration::from_micros(461_168_601_843), CLOCK, BY_TWO)
}

/// 819 µs are less than a tick at DIVIDER 0.
pub fn less_than_a_tick() -> Option<u64>
    ensures { result ≡ Some 0 }
{
    timer_ticks(Duration::from_micros(819), CLOCK, BY_65536)
}

/// 820 µs are one.
pub fn one_tick() -> Option<u64>
    ensures { result ≡ Some 1 }
{
    timer_ticks(Duration::from_micros(820), CLOCK, BY_65536)
}

/// The longest period of an alarm at 16 ticks in a microsecond.
pub fn longest_period() -> Option<u64>
    ensures { result ≡ Some (2 ^ 26 - 16) }
{
    alarm_ticks(Duration::from_micros(4_194_303), TICKS_PER_MICRO, true)
}

/// One microsecond more is refused.
pub fn too_long_period() -> Option<u64>
    ensures { result ≡ None }
{
    alarm_ticks(Duration::from_micros(4_194_304), TICKS_PER_MICRO, true)
}

/// One microsecond on from the last count, the target is 15.
pub fn target_past_the_end() -> Option<u64>
    ensures { result ≡ Some 15 }
{
    let ticks = alarm_ticks(Duration::from_micros(1), TICKS_PER_MICRO, false)?;
    Some(target_after(0xF_FFFF_FFFF_FFFF, ticks))
}
