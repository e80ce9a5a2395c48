// Lines of all ten kinds of messages, with lists and sets of nothing, of one and of more.
use crate::end::ToldEnd;
use crate::told::Told;
use numbers::{Epoch, Time, Version};
use quorum::MemberSet;
use rules::{Delivery, Message, Pair, Pairs, Parts, Renewal, Renewed};
use std::test::Fail;

const VERSION: Version = Version(131_073);

// Two versions of objects: 131,073 of object 0 and 196,610 of object 15.
fn two_pairs() -> Pairs {
    let mut items = [Pair::NONE; 8];
    items[0].version = VERSION;
    items[1] = Pair {
        object: 15,
        version: Version(196_610),
    };
    Pairs { count: 2, items }
}

#[test]
fn messages_of_writes(rt: HostRuntime) -> Result<(), Fail> {
    let held = Message::WriteRequest {
        operation: 1,
        input: 0,
        object: 2,
        version: VERSION,
        value: 7,
    };
    let cases = [
        (
            Message::ClockQuestion {
                operation: 1,
                input: 0,
            },
            "message 9: write 1 asks input server 0 for its clock",
        ),
        (
            Message::ClockAnswer {
                input: 7,
                operation: 1,
                clock: 65_534,
            },
            "message 9: input server 7 answers write 1: clock 65534",
        ),
        (
            held,
            "message 9: write 1 asks input server 0 to hold version 131073 of object 2, value 7",
        ),
        (
            Message::WriteAnswer {
                input: 0,
                operation: 1,
                shut_out: MemberSet::EMPTY,
            },
            "message 9: input server 0 answers write 1 and names as shut out: nobody",
        ),
        (
            Message::WriteAnswer {
                input: 0,
                operation: 1,
                shut_out: MemberSet(0b100),
            },
            "message 9: input server 0 answers write 1 and names as shut out: 2",
        ),
        (
            Message::WriteAnswer {
                input: 0,
                operation: 1,
                shut_out: MemberSet(1 << 63 | 0b1001),
            },
            "message 9: input server 0 answers write 1 and names as shut out: 0, 3, 63",
        ),
    ];
    for (message, line) in cases {
        let told = Told::new(9, &message);
        assert_eq!(rt; format!(in rt.alloc(); "{told}")?.as_str(), line);
    }
    Ok(())
}

#[test]
fn messages_of_reads(rt: HostRuntime) -> Result<(), Fail> {
    let cases = [
        (
            Message::ReadRequest {
                operation: 2,
                output: 0,
                object: 0,
            },
            "message 5: read 2 asks output server 0 for object 0",
        ),
        (
            Message::ReadAnswer {
                output: 0,
                operation: 2,
                version: VERSION,
                value: 7,
            },
            "message 5: output server 0 answers read 2: version 131073, value 7",
        ),
    ];
    for (message, line) in cases {
        let told = Told::new(5, &message);
        assert_eq!(rt; format!(in rt.alloc(); "{told}")?.as_str(), line);
    }
    Ok(())
}

fn request(parts: Parts) -> Message {
    Message::RenewalRequest {
        output: 7,
        input: 1,
        renewal: Renewal {
            parts,
            object: 3,
            stamp: Time(500),
        },
    }
}

fn answer(parts: Parts, list: Pairs) -> Message {
    Message::RenewalAnswer {
        input: 1,
        output: 7,
        renewed: Renewed {
            renewal: Renewal {
                parts,
                object: 3,
                stamp: Time(500),
            },
            version: VERSION,
            value: 7,
            epoch: Epoch::FIRST,
            length: 1_000,
            list,
        },
    }
}

#[test]
fn messages_between_servers(rt: HostRuntime) -> Result<(), Fail> {
    let cases = [
        (
            request(Parts::Object),
            "message 4: output server 7 asks input server 1 for object 3, stamped 500",
        ),
        (
            request(Parts::Volume),
            "message 4: output server 7 asks input server 1 for a lease, stamped 500",
        ),
        (
            request(Parts::Both),
            "message 4: output server 7 asks input server 1 for object 3 and a lease, stamped 500",
        ),
        (
            answer(Parts::Object, Pairs::empty()),
            "message 4: input server 1 answers output server 7: epoch 1, version 131073 of object 3 with value 7",
        ),
        (
            answer(Parts::Volume, two_pairs()),
            "message 4: input server 1 answers output server 7: epoch 1, a lease of 1000 from 500, news of version 131073 of object 0, version 196610 of object 15",
        ),
        (
            answer(Parts::Both, Pairs::empty()),
            "message 4: input server 1 answers output server 7: epoch 1, version 131073 of object 3 with value 7, a lease of 1000 from 500",
        ),
        (
            Message::Invalidation {
                input: 1,
                output: 7,
                object: 3,
                version: VERSION,
            },
            "message 4: input server 1 tells output server 7 of version 131073 of object 3",
        ),
        (
            Message::InvalidationAnswer {
                output: 7,
                input: 1,
                list: Pairs::empty(),
            },
            "message 4: output server 7 tells input server 1 that it knows nothing",
        ),
        (
            Message::InvalidationAnswer {
                output: 7,
                input: 1,
                list: two_pairs(),
            },
            "message 4: output server 7 tells input server 1 that it knows version 131073 of object 0, version 196610 of object 15",
        ),
    ];
    for (message, line) in cases {
        let told = Told::new(4, &message);
        assert_eq!(rt; format!(in rt.alloc(); "{told}")?.as_str(), line);
    }
    Ok(())
}

#[test]
fn ends_of_operations(rt: HostRuntime) -> Result<(), Fail> {
    let write = Delivery::WriteEnded {
        operation: 1,
        version: VERSION,
        value: 7,
    };
    let read = Delivery::ReadEnded {
        operation: 1_024,
        version: Version::STARTING,
        value: 0,
    };
    for (delivery, line) in [
        (Delivery::NothingEnded, "nothing ended"),
        (write, "write 1 ended with version 131073, value 7"),
        (read, "read 1024 ended with version 65536, value 0"),
    ] {
        let told = ToldEnd::new(delivery);
        assert_eq!(rt; format!(in rt.alloc(); "{told}")?.as_str(), line);
    }
    Ok(())
}
