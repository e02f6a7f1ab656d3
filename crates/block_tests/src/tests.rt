// Each test names what it shows.
use super::*;
use base::chip::{Chip, Ratio, ResetWords};
use base::error::Error;
use base::numbers::TimerNumber;
use base::profile::Profile;
use base::registers::{GroupRegister, TimerRegister};
use block::place::Place;
use block::replay::replay;
use block::words::{watchdog_word, word_at};
use recorder::Recorder;
use simulated::SimulatedBlock;
use std::test::Fail;

fn accepted(chip: Chip) -> bool {
    Profile::new(chip).is_ok()
}

#[test]
fn profile_rates_at_their_limits(rt: HostRuntime) {
    let bench = Profile::bench().chip();
    assert!(rt;
        accepted(Chip {
            clock: 1_000_000,
            ..bench
        })
    );
    assert!(rt;
        !accepted(Chip {
            clock: 999_999,
            ..bench
        })
    );
    assert!(rt;
        accepted(Chip {
            crystal: 2_500_000,
            ..bench
        })
    );
    assert!(rt;
        !accepted(Chip {
            crystal: 2_499_999,
            ..bench
        })
    );
    assert!(rt;
        accepted(Chip {
            crystal: 1_000_000_000,
            ..bench
        })
    );
    assert!(rt;
        !accepted(Chip {
            crystal: 1_000_000_001,
            ..bench
        })
    );
    assert!(rt; accepted(Chip { timers: 1, ..bench }));
    assert!(rt; !accepted(Chip { timers: 0, ..bench }));
    assert!(rt; !accepted(Chip { timers: 3, ..bench }));
}

#[test]
fn profile_reset_words_with_a_bit_that_must_be_clear(rt: HostRuntime) {
    let bench = Profile::bench().chip();
    let reset = bench.reset;
    for bit in [31u32, 11] {
        let config = reset.config | 1 << bit;
        assert!(rt;
            !accepted(Chip {
                reset: ResetWords { config, ..reset },
                ..bench
            })
        );
    }
    for bit in [22u32, 23, 24] {
        let conf = reset.conf | 1 << bit;
        assert!(rt;
            !accepted(Chip {
                reset: ResetWords { conf, ..reset },
                ..bench
            })
        );
    }
    let wdtconfig0 = reset.wdtconfig0 | 0x8000_0000;
    assert!(rt;
        !accepted(Chip {
            reset: ResetWords {
                wdtconfig0,
                ..reset
            },
            ..bench
        })
    );
    let all = ResetWords {
        config: 0x7FFF_F7FF,
        wdtconfig0: 0x7FFF_FFFF,
        wdtconfig1: 0xFFFF_FFFF,
        conf: 0xFE3F_FFFF,
    };
    assert!(rt;
        accepted(Chip {
            reset: all,
            ..bench
        })
    );
}

#[test]
fn rates_of_chips(rt: HostRuntime) {
    let bench = Profile::bench().chip();
    assert_eq!(rt; bench.clock_mhz(), 80);
    assert_eq!(rt; bench.system_mhz(), 16);
    assert_eq!(rt;
        Chip {
            crystal: 32_000_000,
            ratio: Ratio::Half,
            ..bench
        }
        .system_mhz(),
        16
    );
    assert_eq!(rt;
        Chip {
            crystal: 2_500_000,
            ..bench
        }
        .system_mhz(),
        1
    );
    assert_eq!(rt;
        Chip {
            crystal: 1_000_000_000,
            ..bench
        }
        .system_mhz(),
        400
    );
}

#[test]
fn one_timer_has_one_handle(rt: HostRuntime) -> Result<(), Fail> {
    let bench = Profile::bench();
    let one = Profile::new(Chip {
        timers: 1,
        ..bench.chip()
    })?;
    let (_, handles) = SimulatedBlock::new(bench);
    assert!(rt; handles.timer1.is_some());
    let (_, handles) = SimulatedBlock::new(one);
    assert!(rt; handles.timer1.is_none());
    Ok(())
}

// The answer to a list of one record with these first four bytes, and INT_ENA afterwards.
fn replayed(place: u8, f0: u8, f1: u8, f2: u8) -> (Result<(), Error>, u32) {
    let (mut block, _) = SimulatedBlock::new(Profile::bench());
    let list = [
        26, 0, 0, 0, 0x78, 0x56, 0x34, 0x12, place, f0, f1, f2, 1, 2, 3, 4,
    ];
    let answer = replay(&mut block, &list);
    (
        answer,
        word_at(&block.words(), Place::from(GroupRegister::IntEna)),
    )
}

#[test]
fn bad_record_is_told_and_earlier_ones_are_put(rt: HostRuntime) {
    let bad = Err(Error::BadRecord(1));
    assert_eq!(rt; replayed(48, 0, 0, 0), (Ok(()), 0x1234_5678));
    assert_eq!(rt; replayed(49, 0, 0, 0), (bad, 0x1234_5678));
    assert_eq!(rt; replayed(255, 0, 0, 0), (bad, 0x1234_5678));
    assert_eq!(rt; replayed(26, 1, 0, 0), (bad, 0x1234_5678));
    assert_eq!(rt; replayed(26, 0, 1, 0), (bad, 0x1234_5678));
    assert_eq!(rt; replayed(26, 0, 0, 1), (bad, 0x1234_5678));
    assert_eq!(rt; replayed(26, 0, 0, 0), (Ok(()), 0x0403_0201));
}

// The answer to the first `length` bytes of zeros behind a bad record, and behind none.
fn answers(length: usize) -> (Result<(), Error>, Result<(), Error>) {
    let mut list = [0; 65_544];
    let length = length.min(65_544);
    let (mut block, _) = SimulatedBlock::new(Profile::bench());
    let good = replay(&mut block, &list[0..length]);
    list[1] = 1;
    (replay(&mut block, &list[0..length]), good)
}

#[test]
fn bad_length_comes_before_a_bad_record(rt: HostRuntime) {
    let first = Err(Error::BadRecord(0));
    assert_eq!(rt; answers(0), (Ok(()), Ok(())));
    assert_eq!(rt;
        answers(7),
        (Err(Error::BadLength(0)), Err(Error::BadLength(0)))
    );
    assert_eq!(rt; answers(8), (first, Ok(())));
    assert_eq!(rt;
        answers(9),
        (Err(Error::BadLength(1)), Err(Error::BadLength(1)))
    );
    assert_eq!(rt;
        answers(65_535),
        (Err(Error::BadLength(8_191)), Err(Error::BadLength(8_191)))
    );
    assert_eq!(rt; answers(65_536), (first, Ok(())));
    assert_eq!(rt;
        answers(65_537),
        (Err(Error::BadLength(8_192)), Err(Error::BadLength(8_192)))
    );
    assert_eq!(rt;
        answers(65_544),
        (Err(Error::BadLength(8_192)), Err(Error::BadLength(8_192)))
    );
}

#[test]
fn bad_length_puts_nothing(rt: HostRuntime) {
    let (mut block, _) = SimulatedBlock::new(Profile::bench());
    let list = [26, 0, 0, 0, 1, 0, 0, 0, 26];
    assert_eq!(rt; replay(&mut block, &list), Err(Error::BadLength(1)));
    assert_eq!(rt;
        word_at(&block.words(), Place::from(GroupRegister::IntEna)),
        0
    );
}

// Three puts on a recorder over the list, and how many it counts.
fn three_puts(list: &mut [u8]) -> u64 {
    let (mut block, _) = Recorder::new(Profile::bench(), list);
    let int_ena = Place::from(GroupRegister::IntEna);
    block.put(int_ena, 0x0403_0201);
    let _ = block.get(int_ena);
    block.put(
        Place::timer(TimerNumber::One, TimerRegister::LoadHi),
        0xFFFF_FFFF,
    );
    block.put(int_ena, 0);
    block.puts()
}

#[test]
fn recorder_writes_while_records_fit(rt: HostRuntime) {
    let records = [
        26, 0, 0, 0, 1, 2, 3, 4, 16, 0, 0, 0, 255, 255, 255, 255, 26, 0, 0, 0, 0, 0, 0, 0, 0xAA,
    ];
    for length in 0..26usize {
        let mut list = [0xAA; 25];
        let length = length.min(25);
        assert_eq!(rt; three_puts(&mut list[0..length]), 3);
        let whole = length / 8 * 8;
        for (i, byte) in list.iter().enumerate() {
            let expected = if i < whole && i < 24 {
                records[i]
            } else {
                0xAA
            };
            assert_eq!(rt; *byte, expected);
        }
    }
}

#[test]
fn protection_is_shut_but_for_the_puts_between(rt: HostRuntime) {
    let (mut block, _) = SimulatedBlock::new(Profile::bench());
    put_protected(&mut block, WatchdogRegister::Config2, 5);
    assert_eq!(rt; watchdog_word(&block.words(), WatchdogRegister::Config2), 5);
    let shut = [20, 0, 0, 0, 6, 0, 0, 0];
    assert_eq!(rt; replay(&mut block, &shut), Ok(()));
    assert_eq!(rt; watchdog_word(&block.words(), WatchdogRegister::Config2), 5);
}

#[test]
fn confirming_chip_drops_the_confirming_bit(rt: HostRuntime) -> Result<(), Fail> {
    let bench = Profile::bench().chip();
    for confirm in [false, true] {
        let (mut block, _) = SimulatedBlock::new(Profile::new(Chip { confirm, ..bench })?);
        put_protected(&mut block, WatchdogRegister::Config0, 0x8040_0001);
        let kept = if confirm { 0x8000_0001 } else { 0x8040_0001 };
        assert_eq!(rt;
            watchdog_word(&block.words(), WatchdogRegister::Config0),
            kept
        );
    }
    Ok(())
}
