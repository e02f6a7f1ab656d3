use super::*;
use std::test::Fail;

#[test]
fn a_unit_fits_up_to_the_largest_count(rt: HostRuntime) {
    let most = Duration::from_micros(18_446_744_073_709_551_000);
    assert!(rt; Duration::from_millis(18_446_744_073_709_551) == Some(most));
    assert!(rt; Duration::from_millis(18_446_744_073_709_552) == None);
    let hours = Duration::from_micros(18_446_744_073_600_000_000);
    assert!(rt; Duration::from_hours(5_124_095_576) == Some(hours));
    assert!(rt; Duration::from_hours(5_124_095_577) == None);
    assert!(rt; Rate::from_mhz(4_294) == Some(Rate::from_hz(4_294_000_000)));
    assert!(rt; Rate::from_mhz(4_295) == None);
}

#[test]
fn sums_and_differences_at_the_ends(rt: HostRuntime) {
    let one = Duration::from_micros(1);
    assert!(rt; Duration::MAX.saturating_add(one) == Duration::MAX);
    assert!(rt; Duration::ZERO.saturating_sub(one) == Duration::ZERO);
    let earlier = Instant::from_micros(5);
    let later = Instant::from_micros(7);
    assert_eq!(rt; later.wrapping_sub(earlier).as_micros(), 2);
    assert_eq!(rt;
        earlier.wrapping_sub(later).as_micros(),
        18_446_744_073_709_551_614
    );
    assert!(rt; Instant::EPOCH.checked_sub(one) == None);
    assert!(rt; Instant::EPOCH.checked_add(one) == Some(Instant::from_micros(1)));
}

#[test]
fn quotients_round_down_and_have_no_divisor_of_zero(rt: HostRuntime) {
    let almost_an_hour = Duration::from_micros(3_599_999_999);
    assert_eq!(rt; almost_an_hour.as_minutes(), 59);
    assert_eq!(rt; almost_an_hour.as_hours(), 0);
    assert!(rt; almost_an_hour.checked_div(0) == None);
    assert_eq!(rt; almost_an_hour.checked_ratio(Duration::ZERO), None);
    assert_eq!(rt; Rate::from_hz(7).checked_ratio(Rate::from_hz(2)), Some(3));
    assert_eq!(rt; Rate::from_hz(7).checked_ratio(Rate::from_hz(0)), None);
}

#[test]
fn a_rate_has_a_period_unless_it_is_zero(rt: HostRuntime) {
    assert!(rt; Rate::from_hz(0).as_duration() == None);
    assert!(rt; Rate::from_hz(1).as_duration() == Some(Duration::from_micros(1_000_000)));
    assert!(rt; Rate::from_hz(3).as_duration() == Some(Duration::from_micros(333_333)));
}

#[test]
fn each_prints_its_unit(rt: HostRuntime) -> Result<(), Fail> {
    let duration = Duration::from_micros(1_500);
    let instant = Instant::from_micros(7);
    let rate = Rate::from_hz(80);
    let shown = format!(in rt.alloc(); "{duration}, {instant}, {rate}")?;
    assert_eq!(rt; shown.as_str(), "1500 µs, 7 µs since epoch, 80 Hz");
    Ok(())
}
