// Which numbers of a message are in range, where there are three input servers, two output servers
// and four objects.
use numbers::{Epoch, ObjectCount, ServerCount, Time, Version};
use quorum::MemberSet;
use rules::{Counts, Message, Pair, Pairs, Parts, Renewal, Renewed};
use std::process::Abort;

const LAST_TIME: Time = Time(1_099_511_627_776);

const PAST_LAST_TIME: Time = Time(1_099_511_627_777);

const BELOW_STARTING: Version = Version(65_535);

fn fits(message: &Message) -> bool {
    let counts = Counts {
        inputs: ServerCount::try_from(3).unwrap(),
        outputs: ServerCount::try_from(2).unwrap(),
        objects: ObjectCount::try_from(4).unwrap(),
    };
    counts.fit(message)
}

// The place of the first message of which it does not hold that it fits, or does not fit.
fn first_other(messages: &[Message], fit: bool) -> Option<usize> {
    messages.iter().position(|message| fits(message) != fit)
}

fn all_fit(rt: &impl Abort, messages: &[Message]) {
    assert_eq!(rt; first_other(messages, true), None);
}

fn none_fits(rt: &impl Abort, messages: &[Message]) {
    assert_eq!(rt; first_other(messages, false), None);
}

fn question(input: u8) -> Message {
    Message::ClockQuestion {
        operation: 7,
        input,
    }
}

fn answer(input: u8, clock: u16) -> Message {
    Message::ClockAnswer {
        input,
        operation: 7,
        clock,
    }
}

#[test]
fn clocks(rt: HostRuntime) {
    all_fit(&rt, &[question(2), answer(2, 1), answer(2, 65_534)]);
    none_fits(
        &rt,
        &[question(3), answer(3, 1), answer(2, 0), answer(2, 65_535)],
    );
}

fn write_request(input: u8, object: u8, version: Version) -> Message {
    Message::WriteRequest {
        operation: 7,
        input,
        object,
        version,
        value: u64::MAX,
    }
}

fn write_answer(input: u8, set: u64) -> Message {
    Message::WriteAnswer {
        input,
        operation: 7,
        shut_out: MemberSet(set),
    }
}

#[test]
fn writes(rt: HostRuntime) {
    all_fit(
        &rt,
        &[
            write_request(2, 3, Version::STARTING),
            write_request(2, 3, Version(u32::MAX)),
            write_answer(2, 0b11),
        ],
    );
    none_fits(
        &rt,
        &[
            write_request(3, 3, Version::STARTING),
            write_request(2, 4, Version::STARTING),
            write_request(2, 3, BELOW_STARTING),
            write_answer(3, 0b11),
            write_answer(2, 0b100),
        ],
    );
}

fn read_request(output: u8, object: u8) -> Message {
    Message::ReadRequest {
        operation: 7,
        output,
        object,
    }
}

fn read_answer(output: u8, version: Version) -> Message {
    Message::ReadAnswer {
        output,
        operation: 7,
        version,
        value: u64::MAX,
    }
}

#[test]
fn reads(rt: HostRuntime) {
    all_fit(
        &rt,
        &[read_request(1, 3), read_answer(1, Version::STARTING)],
    );
    none_fits(
        &rt,
        &[
            read_request(2, 3),
            read_request(1, 4),
            read_answer(2, Version::STARTING),
            read_answer(1, BELOW_STARTING),
        ],
    );
}

fn renewal_request(output: u8, input: u8, object: u8, stamp: Time) -> Message {
    Message::RenewalRequest {
        output,
        input,
        renewal: Renewal {
            parts: Parts::Both,
            object,
            stamp,
        },
    }
}

#[test]
fn renewal_requests(rt: HostRuntime) {
    all_fit(&rt, &[renewal_request(1, 2, 3, LAST_TIME)]);
    none_fits(
        &rt,
        &[
            renewal_request(2, 2, 3, LAST_TIME),
            renewal_request(1, 3, 3, LAST_TIME),
            renewal_request(1, 2, 4, LAST_TIME),
            renewal_request(1, 2, 3, PAST_LAST_TIME),
        ],
    );
}

// A renewal answer from input server 2 to output server 1.
fn renewal(parts: Parts, version: Version, value: u64, length: u32, list: Pairs) -> Message {
    Message::RenewalAnswer {
        input: 2,
        output: 1,
        renewed: Renewed {
            renewal: Renewal {
                parts,
                object: 3,
                stamp: LAST_TIME,
            },
            version,
            value,
            epoch: Epoch(65_536),
            length,
            list,
        },
    }
}

// One pair of object 3 and the starting version, under any count.
fn counted(count: u8) -> Pairs {
    let pair = Pair {
        object: 3,
        version: Version::STARTING,
    };
    Pairs {
        count,
        items: [pair; 8],
    }
}

#[test]
fn parts_that_were_asked_for(rt: HostRuntime) {
    all_fit(
        &rt,
        &[renewal(Parts::Both, Version::STARTING, 5, 1_000_000_000, counted(8))],
    );
    none_fits(
        &rt,
        &[
            renewal(Parts::Both, BELOW_STARTING, 5, 1, counted(8)),
            renewal(Parts::Both, Version::STARTING, 5, 1_000_000_001, counted(8)),
            renewal(Parts::Both, Version::STARTING, 5, 1, counted(9)),
        ],
    );
}

#[test]
fn parts_that_were_not(rt: HostRuntime) {
    all_fit(
        &rt,
        &[
            renewal(Parts::Object, Version::STARTING, 5, 0, counted(0)),
            renewal(Parts::Volume, Version::NONE, 0, 1, counted(1)),
        ],
    );
    none_fits(
        &rt,
        &[
            renewal(Parts::Object, Version::STARTING, 5, 1, counted(0)),
            renewal(Parts::Object, Version::STARTING, 5, 0, counted(1)),
            renewal(Parts::Volume, Version::STARTING, 0, 1, counted(1)),
            renewal(Parts::Volume, Version::NONE, 5, 1, counted(1)),
        ],
    );
}

fn renewal_of(input: u8, output: u8, object: u8, epoch: Epoch, stamp: Time) -> Message {
    Message::RenewalAnswer {
        input,
        output,
        renewed: Renewed {
            renewal: Renewal {
                parts: Parts::Volume,
                object,
                stamp,
            },
            version: Version::NONE,
            value: 0,
            epoch,
            length: 1,
            list: Pairs::empty(),
        },
    }
}

#[test]
fn renewal_answers(rt: HostRuntime) {
    all_fit(&rt, &[renewal_of(2, 1, 3, Epoch(1), LAST_TIME)]);
    none_fits(
        &rt,
        &[
            renewal_of(3, 1, 3, Epoch(1), LAST_TIME),
            renewal_of(2, 2, 3, Epoch(1), LAST_TIME),
            renewal_of(2, 1, 4, Epoch(1), LAST_TIME),
            renewal_of(2, 1, 3, Epoch(0), LAST_TIME),
            renewal_of(2, 1, 3, Epoch(65_537), LAST_TIME),
            renewal_of(2, 1, 3, Epoch(1), PAST_LAST_TIME),
        ],
    );
}

fn invalidation(input: u8, output: u8, object: u8, version: Version) -> Message {
    Message::Invalidation {
        input,
        output,
        object,
        version,
    }
}

fn acknowledgement(output: u8, input: u8, list: Pairs) -> Message {
    Message::InvalidationAnswer {
        output,
        input,
        list,
    }
}

// A list of one pair.
fn list_of(object: u8, version: Version) -> Pairs {
    Pairs::one(Pair { object, version })
}

#[test]
fn invalidations(rt: HostRuntime) {
    all_fit(&rt, &[invalidation(2, 1, 3, Version::STARTING)]);
    none_fits(
        &rt,
        &[
            invalidation(3, 1, 3, Version::STARTING),
            invalidation(2, 2, 3, Version::STARTING),
            invalidation(2, 1, 4, Version::STARTING),
            invalidation(2, 1, 3, BELOW_STARTING),
        ],
    );
}

#[test]
fn acknowledgements(rt: HostRuntime) {
    all_fit(
        &rt,
        &[
            acknowledgement(1, 2, list_of(3, Version::STARTING)),
            acknowledgement(1, 2, Pairs::empty()),
        ],
    );
    none_fits(
        &rt,
        &[
            acknowledgement(2, 2, list_of(3, Version::STARTING)),
            acknowledgement(1, 3, list_of(3, Version::STARTING)),
            acknowledgement(1, 2, list_of(4, Version::STARTING)),
            acknowledgement(1, 2, list_of(3, BELOW_STARTING)),
            acknowledgement(1, 2, counted(9)),
        ],
    );
}
