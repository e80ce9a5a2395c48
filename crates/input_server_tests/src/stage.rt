// An input server with a log lent to it, and plain numbers in place of checked ones.
use input_server::{InputServer, RenewalRequest, WriteRequest};
use numbers::{
    Epoch, InputNumber, LeaseLength, Moment, OperationNumber, OutputNumber, ServerCount, Time,
    Version,
};
use quorum::MemberSet;
use rules::{InRange, Log, Message, Pair, Pairs, Parts, Renewal, Renewed};
use std::fmt::{Debug, Display};
use std::test::*;

// Every lease that is granted lasts so long.
pub(crate) const LEASE: u32 = 1_000;

// Input server 2 with a few output servers. Every step logs from the first place on, over what the
// step before it logged. Writes are those of operation 9, with the value 5.
#[derive(Drop)]
pub(crate) struct Stage {
    server: InputServer,
    log: [Message; 12],
    me: InputNumber,
    outputs: ServerCount,
    lease: LeaseLength,
}

impl Stage {
    // At the clock 0, with so many output servers.
    pub(crate) fn new(outputs: u8) -> Result<Stage, Fail> {
        let clock = Moment::try_from(Time::ZERO)?;
        Ok(Stage {
            server: InputServer::new(clock),
            log: [Message::BLANK; 12],
            me: InputNumber::try_from(2)?,
            outputs: ServerCount::try_from(outputs)?,
            lease: LeaseLength::try_from(u64::from(LEASE))?,
        })
    }

    pub(crate) fn clock(&self) -> u64 {
        self.server.clock().0
    }

    pub(crate) fn tick(&mut self, increment: u64) -> Result<(), Fail> {
        self.server.tick(increment)?;
        Ok(())
    }

    // The number by which it is refused, if it is.
    pub(crate) fn tick_refused(&mut self, increment: u64) -> Option<u8> {
        self.server
            .tick(increment)
            .err()
            .map(|refusal| refusal.number())
    }

    // A renewal request of an output server, stamped with 70. One message is logged.
    pub(crate) fn renew(&mut self, output: u8, parts: Parts, object: u8) -> Result<(), Fail> {
        let request = RenewalRequest {
            output: OutputNumber::try_from(output)?,
            renewal: InRange::alone(Renewal {
                parts,
                object,
                stamp: Time(70),
            })?,
            lease: self.lease,
        };
        let mut log = Log::new(&mut self.log, 0);
        self.server.answer_renewal(self.me, &request, &mut log)?;
        expect_made(log.made(), 1)?;
        Ok(())
    }

    // A write request. Says how many messages are logged.
    pub(crate) fn write(&mut self, object: u8, version: Version) -> Result<usize, Fail> {
        let request = self.request(object, version)?;
        let mut log = Log::new(&mut self.log, 0);
        self.server.take_write(self.me, &request, &mut log)?;
        Ok(log.made())
    }

    // The same where 4 messages of 12 are made, and 8 free: the number by which it is refused, if
    // it is.
    pub(crate) fn write_refused(
        &mut self,
        object: u8,
        version: Version,
    ) -> Result<Option<u8>, Fail> {
        let request = self.request(object, version)?;
        let mut log = Log::new(&mut self.log, 4);
        let said = self.server.take_write(self.me, &request, &mut log);
        Ok(said.err().map(|refusal| refusal.number()))
    }

    fn request(&self, object: u8, version: Version) -> Result<WriteRequest, Fail> {
        Ok(WriteRequest {
            outputs: self.outputs,
            operation: OperationNumber::try_from(9)?,
            pair: InRange::alone(Pair { object, version })?,
            value: 5,
        })
    }

    pub(crate) fn acknowledge(&mut self, output: u8, list: Pairs) -> Result<(), Fail> {
        let output = OutputNumber::try_from(output)?;
        self.server
            .take_acknowledgement(output, &InRange::alone(list)?);
        Ok(())
    }

    // As the tests of output servers have it: no crate of tests stands on another.
    pub(crate) fn expect(&self, place: usize, message: Message) -> Result<(), Fail> {
        expect_same(
            format_args!("message {place} of the step"),
            &self.log.get(place),
            &Some(&message),
        )
    }

    // That a clock question is answered by that clock.
    pub(crate) fn expect_clock(&mut self, clock: u16) -> Result<(), Fail> {
        let mut log = Log::new(&mut self.log, 0);
        let operation = OperationNumber::try_from(9)?;
        self.server.answer_clock(self.me, operation, &mut log)?;
        expect_made(log.made(), 1)?;
        self.expect(
            0,
            Message::ClockAnswer {
                input: 2,
                operation: 9,
                clock,
            },
        )
    }

    // That a request of the volume alone is answered by that epoch, length and list. The lease that
    // the answer grants, if it does, is granted then.
    pub(crate) fn expect_waiting(
        &mut self,
        output: u8,
        epoch: u32,
        length: u32,
        list: Pairs,
    ) -> Result<(), Fail> {
        self.renew(output, Parts::Volume, 0)?;
        self.expect(
            0,
            Message::RenewalAnswer {
                input: 2,
                output,
                renewed: Renewed {
                    renewal: Renewal {
                        parts: Parts::Volume,
                        object: 0,
                        stamp: Time(70),
                    },
                    version: Version::NONE,
                    value: 0,
                    epoch: Epoch(epoch),
                    length,
                    list,
                },
            },
        )
    }

    // That a request of output server 0 for object 3 is answered so, in the first epoch and with
    // nothing waiting.
    pub(crate) fn expect_given(
        &mut self,
        parts: Parts,
        version: Version,
        value: u64,
        length: u32,
    ) -> Result<(), Fail> {
        self.renew(0, parts, 3)?;
        self.expect(
            0,
            Message::RenewalAnswer {
                input: 2,
                output: 0,
                renewed: Renewed {
                    renewal: Renewal {
                        parts,
                        object: 3,
                        stamp: Time(70),
                    },
                    version,
                    value,
                    epoch: Epoch(1),
                    length,
                    list: Pairs::empty(),
                },
            },
        )
    }

    // That at a write request output server 0, the only one, is told of the version `held`.
    pub(crate) fn expect_told(
        &mut self,
        object: u8,
        version: Version,
        held: Version,
    ) -> Result<(), Fail> {
        expect_made(self.write(object, version)?, 2)?;
        self.expect(
            0,
            Message::Invalidation {
                input: 2,
                output: 0,
                object,
                version: held,
            },
        )?;
        self.expect(1, named(0))
    }

    // That at a write request output server 0, the only one, is shut out.
    pub(crate) fn expect_shut_out(&mut self, object: u8, version: Version) -> Result<(), Fail> {
        expect_made(self.write(object, version)?, 1)?;
        self.expect(0, named(1))
    }
}

// The answer to a write, with the set of output servers that are shut out.
pub(crate) fn named(shut_out: u64) -> Message {
    Message::WriteAnswer {
        input: 2,
        operation: 9,
        shut_out: MemberSet(shut_out),
    }
}

pub(crate) fn pair(object: u8, version: Version) -> Pair {
    Pair { object, version }
}

// That what is found there is what is wanted.
pub(crate) fn expect_same<T: PartialEq + Debug>(
    place: impl Display + Drop,
    found: &T,
    wanted: &T,
) -> Result<(), Fail> {
    if found == wanted {
        return Ok(());
    }
    Err(Fail::new(format_args!("{place}: {found:?}, and not {wanted:?}")))
}

// That a step logged so many messages.
pub(crate) fn expect_made(found: usize, wanted: usize) -> Result<(), Fail> {
    expect_same("messages of the step", &found, &wanted)
}
