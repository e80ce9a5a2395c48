// Blank places of a log, lists of pairs and the parts of renewals, by example.
use crate::message::Message;
use crate::pairs::{Pair, Pairs};
use crate::parts::Parts;
use numbers::Version;

#[test]
fn a_blank_place_names_an_operation_that_there_is_not(rt: HostRuntime) {
    assert_eq!(rt; Message::BLANK.operation(), Some(0));
}

#[test]
fn pairs_that_are_read(rt: HostRuntime) {
    let pair = Pair {
        object: 15,
        version: Version::STARTING,
    };
    assert_eq!(rt; Pairs::empty().len(), 0);
    assert_eq!(rt; Pairs::empty().get(0), None);
    let one = Pairs::one(pair);
    assert_eq!(rt; one.len(), 1);
    assert_eq!(rt; one.get(0), Some(pair));
    assert_eq!(rt; one.get(1), None);
    let mut items = [Pair::NONE; 8];
    items[7] = pair;
    for (count, len) in [(0, 0), (8, 8), (9, 8), (255, 8)] {
        assert_eq!(rt; Pairs { count, items }.len(), len);
    }
    for (count, place, found) in [
        (7, 6, Some(Pair::NONE)),
        (7, 7, None),
        (8, 7, Some(pair)),
        (8, 8, None),
        (255, 7, Some(pair)),
        (255, 8, None),
        (255, 255, None),
    ] {
        assert_eq!(rt; Pairs { count, items }.get(place), found);
    }
}

#[test]
fn parts_of_renewals(rt: HostRuntime) {
    assert_eq!(rt; Parts::of(true, true), Parts::Both);
    assert_eq!(rt; Parts::of(true, false), Parts::Object);
    assert_eq!(rt; Parts::of(false, true), Parts::Volume);
    assert_eq!(rt; Parts::of(false, false), Parts::Volume);
    for (parts, object, volume) in [
        (Parts::Object, true, false),
        (Parts::Volume, false, true),
        (Parts::Both, true, true),
    ] {
        assert_eq!(rt; parts.has_object(), object);
        assert_eq!(rt; parts.has_volume(), volume);
    }
}
