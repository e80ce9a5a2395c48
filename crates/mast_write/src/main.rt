// One write of a mast box, with no field around it: three input servers by majority, two output
// servers by read-one write-all. What the boxes send each other is written down here; a box would
// take it from its radio.
#![tactic(auto)]

mod stop;
mod walk;

use operation::AskingWrite;
use quorum::{Majority, MemberSet, ReadOneWriteAll, Systems};
use rules::Message;
use stop::Stop;
use walk::{ask, send};

fn clock(input: u8, operation: u16, clock: u16) -> Message {
    Message::ClockAnswer {
        input,
        operation,
        clock,
    }
}

fn named(input: u8, operation: u16, set: u64) -> Message {
    Message::WriteAnswer {
        input,
        operation,
        shut_out: MemberSet(set),
    }
}

fn main(rt: HostRuntime) -> Result<(), Stop> {
    let systems = Systems {
        inputs: Majority::new(3)?,
        outputs: ReadOneWriteAll::new(2)?,
    };
    println!(rt; "Asking: operation 7 writes 500 to object 3.")?;
    let asking = AskingWrite::new(7, 3, 500);
    // the second is to another operation
    let clocks = [clock(0, 7, 4), clock(1, 8, 60_000), clock(2, 7, 9)];
    let sending = ask(&rt, asking, &clocks, &systems)?;

    let version = sending.version();
    let value = sending.value();
    let object = sending.object();
    println!(rt; "Sending: version {version} of object {object}, value {value}.")?;
    // output server 1 is named by a write set of the input servers only with the third
    let sets = [named(0, 7, 0b01), named(1, 7, 0b11), named(2, 7, 0b10)];
    let end = send(&rt, sending, &sets, &systems)?;

    let version = end.version;
    let operation = end.operation;
    let value = end.value;
    println!(rt; "Ended: operation {operation}, version {version}, value {value}.")?;
    Ok(())
}
