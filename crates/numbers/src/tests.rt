// The numbers at the ends of their ranges, by example.
use crate::epoch::Epoch;
use crate::kinds::{InputNumber, ObjectNumber, OutputNumber, ServerCount};
use crate::moment::{Drift, LeaseLength, Moment};
use crate::out_of_range::OutOfRange;
use crate::time::Time;
use crate::version::Version;
use std::test::Fail;

#[test]
fn versions_of_clocks(rt: HostRuntime) {
    for (clock, operation, version) in [
        (1, 0, 65_536),
        (1, 1, 65_537),
        (1, 65_535, 131_071),
        (65_535, 0, 4_294_901_760),
        (65_535, 1, 4_294_901_761),
        (65_535, 65_535, u32::MAX),
    ] {
        assert_eq!(rt; Version::new(clock, operation), Version(version));
    }
    for (version, clock) in [
        (0, 0),
        (65_535, 0),
        (65_536, 1),
        (131_073, 2),
        (u32::MAX, 65_535),
    ] {
        assert_eq!(rt; Version(version).clock(), clock);
    }
    for (highest, version) in [(0, 65_537), (1, 131_073), (65_534, 4_294_901_761)] {
        assert_eq!(rt; Version::after(highest, 1), Some(Version(version)));
    }
    assert_eq!(rt; Version::after(65_535, 1), None);
}

#[test]
fn versions_in_order(rt: HostRuntime) {
    for (version, inside) in [
        (0, false),
        (65_535, false),
        (65_536, true),
        (u32::MAX, true),
    ] {
        assert_eq!(rt; Version(version).is_version(), inside);
    }
    let low = Version::STARTING;
    let high = Version(65_537);
    assert!(rt; high > low);
    assert!(rt; !(low > high));
    assert!(rt; !(low > low));
    assert_eq!(rt; low.max(high), high);
    assert_eq!(rt; high.max(low), high);
}

#[test]
fn epochs_and_times_in_range(rt: HostRuntime) {
    for (epoch, inside) in [(0, false), (1, true), (65_536, true), (65_537, false)] {
        assert_eq!(rt; Epoch(epoch).is_epoch(), inside);
    }
    for (time, inside) in [(0, true), (1 << 40, true), ((1 << 40) + 1, false)] {
        assert_eq!(rt; Time(time).is_shown(), inside);
    }
}

#[test]
fn versions_epochs_and_times_as_numbers(rt: HostRuntime) -> Result<(), Fail> {
    let version = Version(131_073);
    let epoch = Epoch(1);
    let time = Time(1_490);
    let text = format!(in rt.alloc(); "{version}, {epoch}, {time}, {time:>6}")?;
    assert_eq!(rt; text.as_str(), "131073, 1, 1490,   1490");
    let version = Version(u32::MAX);
    let epoch = Epoch::NONE;
    let time = Time(u64::MAX);
    let text = format!(in rt.alloc(); "{version} {epoch} {time}")?;
    assert_eq!(rt; text.as_str(), "4294967295 0 18446744073709551615");
    Ok(())
}

#[test]
fn epochs_and_times_in_order(rt: HostRuntime) {
    assert_eq!(rt; Epoch::FIRST.max(Epoch(2)), Epoch(2));
    assert_eq!(rt; Epoch(2).max(Epoch::FIRST), Epoch(2));
    assert_eq!(rt; Time::ZERO.max(Time(1)), Time(1));
    assert_eq!(rt; Time(1).max(Time::ZERO), Time(1));
    let end = Time(1_490);
    assert!(rt; end.is_live_at(Time(1_489)));
    assert!(rt; !end.is_live_at(end));
    assert!(rt; !end.is_live_at(Time(1_491)));
}

fn lease_end(stamp: u64, length: u64, drift: u64) -> Result<Time, OutOfRange> {
    let stamp = Moment::try_from(Time(stamp))?;
    Ok(stamp.lease_end(LeaseLength::try_from(length)?, Drift::try_from(drift)?))
}

#[test]
fn leases_end_early_by_the_drift(rt: HostRuntime) {
    for (stamp, length, drift, end) in [
        (500, 1_000, 10, 1_490),
        (500, 1, 10, 500),
        (500, 0, 0, 500),
        (500, 1_000, 999, 501),
        (500, 999, 999, 500),
        (1 << 40, 1_000_000_000, 0, 1_100_511_627_776),
    ] {
        assert_eq!(rt; lease_end(stamp, length, drift), Ok(Time(end)));
    }
}

#[test]
fn drifts_keep_clocks_together(rt: HostRuntime) -> Result<(), Fail> {
    for (drift, x, y, keeps) in [
        (10, 990, 1_000, true),
        (10, 989, 1_000, false),
        (10, 0, 0, true),
        (0, 0, 1, false),
        (999, 0, 1, false),
        (999, 1, 1_000, true),
        (999, 1, 1_001, false),
        (0, u64::MAX, u64::MAX, true),
        (0, u64::MAX - 1, u64::MAX, false),
        (999, u64::MAX, 0, true),
        (999, 0, u64::MAX, false),
    ] {
        assert_eq!(rt; Drift::try_from(drift)?.keeps(x, y), keeps);
    }
    Ok(())
}

#[test]
fn numbers_at_the_ends_of_their_ranges(rt: HostRuntime) -> Result<(), Fail> {
    for time in [Time::ZERO, Time(1 << 40)] {
        assert_eq!(rt; Time::from(Moment::try_from(time)?), time);
    }
    assert_eq!(rt; Moment::try_from(Time((1 << 40) + 1)), Err(OutOfRange));
    for micros in [0, 1_000_000_000] {
        let length = LeaseLength::try_from(u64::from(micros))?;
        assert_eq!(rt; length.micros(), micros);
    }
    // the second is 1 in its lowest 32 places
    for micros in [1_000_000_001, (1 << 32) + 1, u64::MAX] {
        assert_eq!(rt; LeaseLength::try_from(micros), Err(OutOfRange));
    }
    for thousandths in [0, 999] {
        let drift = Drift::try_from(u64::from(thousandths))?;
        assert_eq!(rt; drift.thousandths(), thousandths);
    }
    // the second is 1 in its lowest 16 places
    for thousandths in [1_000, (1 << 16) + 1, u64::MAX] {
        assert_eq!(rt; Drift::try_from(thousandths), Err(OutOfRange));
    }
    Ok(())
}

#[test]
fn out_of_range_in_words(rt: HostRuntime) -> Result<(), Fail> {
    let text = format!(in rt.alloc(); "{}", OutOfRange)?;
    assert_eq!(rt; text.as_str(), "a number is out of its range");
    Ok(())
}

#[test]
fn servers_and_objects_by_number(rt: HostRuntime) -> Result<(), Fail> {
    for number in [0, 7] {
        assert_eq!(rt; InputNumber::try_from(number)?.get(), number);
        assert_eq!(rt; OutputNumber::try_from(number)?.get(), number);
    }
    assert_eq!(rt; InputNumber::try_from(8), Err(OutOfRange));
    assert_eq!(rt; OutputNumber::try_from(8), Err(OutOfRange));
    for number in [0, 15] {
        assert_eq!(rt; ObjectNumber::try_from(number)?.get(), number);
    }
    assert_eq!(rt; ObjectNumber::try_from(16), Err(OutOfRange));
    for count in [0, 8] {
        assert_eq!(rt; ServerCount::try_from(count)?.get(), count);
    }
    assert_eq!(rt; ServerCount::try_from(9), Err(OutOfRange));
    Ok(())
}
