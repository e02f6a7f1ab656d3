// Lists whose settings follow from the rules of the registers.
use super::*;
use setting::kinds::{StageAction, Timing};
use std::test::Fail;

// Alarm 1 started for 4,194,303 microseconds at 16 ticks each, as the alarm's own driver writes it.
const ALARM_AGAIN: [u8; 64] = [
    48, 0, 0, 0, 0x02, 0x00, 0x00, 0x00, 30, 0, 0, 0, 0x00, 0x00, 0x00, 0x46, 41, 0, 0, 0, 0x00,
    0x00, 0x00, 0x40, 41, 0, 0, 0, 0xF0, 0xFF, 0xFF, 0x43, 44, 0, 0, 0, 0x01, 0x00, 0x00, 0x00, 41,
    0, 0, 0, 0xF0, 0xFF, 0xFF, 0x03, 41, 0, 0, 0, 0xF0, 0xFF, 0xFF, 0x43, 30, 0, 0, 0, 0x00, 0x00,
    0x80, 0x46,
];

// The watchdog enabled, its protection opened before and shut after.
const WATCHDOG_ON: [u8; 40] = [
    25, 0, 0, 0, 0xA1, 0x3A, 0xD8, 0x50, 18, 0, 0, 0, 0x00, 0xC0, 0x04, 0x80, 18, 0, 0, 0, 0x00,
    0x80, 0x04, 0x00, 18, 0, 0, 0, 0x00, 0x80, 0x1F, 0xE0, 25, 0, 0, 0, 0x00, 0x00, 0x00, 0x00,
];

#[test]
fn alarm_that_repeats_is_due_after_its_period(rt: HostRuntime) -> Result<(), Fail> {
    let settings = settings_of_list(Profile::bench(), &ALARM_AGAIN)?;
    assert!(rt; settings.alarm1.timing == Timing::Again(67_108_848));
    assert!(rt; settings.alarm0.timing == Timing::Idle);
    assert!(rt; settings.alarm2.timing == Timing::Idle);
    Ok(())
}

#[test]
fn watchdog_is_set_only_while_its_protection_is_open(rt: HostRuntime) -> Result<(), Fail> {
    let open = settings_of_list(Profile::bench(), &WATCHDOG_ON)?.watchdog;
    assert!(rt; open.enabled);
    assert!(rt; open.actions.stage0 == StageAction::ResetSystem);
    assert!(rt; open.actions.stage1 == StageAction::Off);
    let shut = settings_of_list(Profile::bench(), &WATCHDOG_ON[8..32])?.watchdog;
    assert!(rt; !shut.enabled);
    assert!(rt; shut.actions.stage0 == StageAction::Off);
    Ok(())
}

#[test]
fn verdict_is_told_part_by_part(rt: HostRuntime) -> Result<(), Fail> {
    let Ok(verdict) = judge_lists(Profile::bench(), &ALARM_AGAIN, &ALARM_AGAIN[16..64]) else {
        return Err(Fail::new("a list was refused"));
    };
    assert!(rt; verdict.same());
    let Ok(verdict) = judge_lists(Profile::bench(), &ALARM_AGAIN, &WATCHDOG_ON) else {
        return Err(Fail::new("a list was refused"));
    };
    assert!(rt; verdict.timer0 && verdict.timer1 && verdict.alarm0 && verdict.alarm2);
    assert!(rt; !verdict.alarm1 && !verdict.watchdog && !verdict.same());
    Ok(())
}

#[test]
fn first_refused_list_is_told(rt: HostRuntime) -> Result<(), Fail> {
    let Err(refused) = judge_lists(Profile::bench(), &[0], &[]) else {
        return Err(Fail::new("the first list was accepted"));
    };
    assert!(rt; matches!(refused, RefusedList::First(_)));
    let Err(refused) = judge_lists(Profile::bench(), &[], &[49, 0, 0, 0, 0, 0, 0, 0]) else {
        return Err(Fail::new("the second list was accepted"));
    };
    assert_eq!(rt; refused, RefusedList::Second(Error::BadRecord(0)));
    Ok(())
}
