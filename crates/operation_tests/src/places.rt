// Which places of a table are in range, where there are three input servers, two output servers and
// four objects.
use crate::handing::{sending, write};
use numbers::{ObjectCount, ServerCount};
use operation::{AskingWrite, Operation, Read};
use rules::Counts;
use std::test::Fail;

fn fits(place: Operation, operation: u16) -> bool {
    let counts = Counts {
        inputs: ServerCount::try_from(3).unwrap(),
        outputs: ServerCount::try_from(2).unwrap(),
        objects: ObjectCount::try_from(4).unwrap(),
    };
    place.fits(counts, operation)
}

#[test]
fn places_without_an_operation_fit_anywhere(rt: HostRuntime) {
    assert!(rt; fits(Operation::Unused, 0));
    assert!(rt; fits(Operation::Ended, u16::MAX));
}

#[test]
fn an_operation_fits_under_its_own_number(rt: HostRuntime) -> Result<(), Fail> {
    assert!(rt; fits(write(7), 7));
    assert!(rt; !fits(write(7), 8));
    assert!(rt; fits(sending()?, 7));
    assert!(rt; !fits(sending()?, 8));
    assert!(rt; fits(Operation::Reading(Read::new(7, 3)), 7));
    assert!(rt; !fits(Operation::Reading(Read::new(7, 3)), 8));
    Ok(())
}

#[test]
fn objects_are_those_that_there_are(rt: HostRuntime) {
    assert!(rt; !fits(Operation::Asking(AskingWrite::new(7, 4, 500)), 7));
    assert!(rt; !fits(Operation::Reading(Read::new(7, 4)), 7));
}

#[test]
fn places_tell_what_is_there(rt: HostRuntime) -> Result<(), Fail> {
    for (place, operation, is_write, is_read) in [
        (Operation::Unused, None, false, false),
        (write(7), Some(7), true, false),
        (sending()?, Some(7), true, false),
        (Operation::Reading(Read::new(8, 3)), Some(8), false, true),
        (Operation::Ended, None, false, false),
    ] {
        assert_eq!(rt; place.operation(), operation);
        assert_eq!(rt; place.is_write(), is_write);
        assert_eq!(rt; place.is_read(), is_read);
    }
    Ok(())
}

#[test]
fn room_above_the_clock(rt: HostRuntime) -> Result<(), Fail> {
    assert!(rt; write(7).has_next_clock());
    assert!(rt; sending()?.has_next_clock());
    assert!(rt; Operation::Unused.has_next_clock());
    Ok(())
}
