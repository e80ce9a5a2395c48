// An output server with a log lent to it, and plain numbers in place of checked ones.
use numbers::{
    Drift, Epoch, InputNumber, Moment, ObjectNumber, OperationNumber, OutputNumber, Time, Version,
};
use output_server::OutputServer;
use quorum::Majority;
use rules::{InRange, Log, Message, Pair, Pairs, Parts, Renewal, Renewed};
use std::fmt::{Debug, Display};
use std::test::*;

// A renewal answer about object 3, in plain numbers.
#[derive(Clone, Copy)]
pub(crate) struct Answer {
    pub(crate) parts: Parts,
    pub(crate) version: Version,
    pub(crate) value: u64,
    pub(crate) epoch: u32,
    pub(crate) stamp: u64,
    pub(crate) length: u32,
    pub(crate) list: Pairs,
}

// Output server 4 with a few input servers, whose system is majority, and a drift of 10. Every step
// logs from the first place on. Reads are those of operation 9, of object 3.
#[derive(Drop)]
pub(crate) struct Stage {
    server: OutputServer,
    log: [Message; 12],
    inputs: Majority,
    me: OutputNumber,
    operation: OperationNumber,
    object: ObjectNumber,
    drift: Drift,
}

impl Stage {
    pub(crate) fn new(inputs: u8, clock: u64) -> Result<Stage, Fail> {
        let clock = Moment::try_from(Time(clock))?;
        Ok(Stage {
            server: OutputServer::new(clock),
            log: [Message::BLANK; 12],
            inputs: Majority::new(u64::from(inputs))?,
            me: OutputNumber::try_from(4)?,
            operation: OperationNumber::try_from(9)?,
            object: ObjectNumber::try_from(3)?,
            drift: Drift::try_from(10)?,
        })
    }

    pub(crate) fn tick(&mut self, increment: u64) -> Result<(), Fail> {
        self.server.tick(increment)?;
        Ok(())
    }

    // A read request. Says how many messages are logged.
    pub(crate) fn read(&mut self) -> Result<usize, Fail> {
        let mut log = Log::new(&mut self.log, 0);
        self.server.answer_read(self.me, &self.inputs, self.operation, self.object, &mut log)?;
        Ok(log.made())
    }

    // The number by which a read request is refused, if it is.
    pub(crate) fn read_refused(&mut self) -> Option<u8> {
        let mut log = Log::new(&mut self.log, 0);
        self.server
            .answer_read(self.me, &self.inputs, self.operation, self.object, &mut log)
            .err()
            .map(|refusal| refusal.number())
    }

    // A renewal answer of an input server. Says how many messages are logged.
    pub(crate) fn renewed(&mut self, input: u8, answer: Answer) -> Result<usize, Fail> {
        let input = InputNumber::try_from(input)?;
        let renewed = InRange::alone(Renewed {
            renewal: Renewal {
                parts: answer.parts,
                object: self.object.get(),
                stamp: Time(answer.stamp),
            },
            version: answer.version,
            value: answer.value,
            epoch: Epoch(answer.epoch),
            length: answer.length,
            list: answer.list,
        })?;
        let mut log = Log::new(&mut self.log, 0);
        self.server
            .take_renewal(self.me, input, &renewed, self.drift, &mut log)?;
        Ok(log.made())
    }

    // That version of object 3.
    fn pair(&self, version: Version) -> Result<InRange<Pair>, Fail> {
        Ok(InRange::alone(Pair {
            object: self.object.get(),
            version,
        })?)
    }

    // An invalidation of object 3 by an input server, and that it is acknowledged.
    pub(crate) fn invalidated(&mut self, input: u8, version: Version) -> Result<(), Fail> {
        let number = InputNumber::try_from(input)?;
        let pair = self.pair(version)?;
        let mut log = Log::new(&mut self.log, 0);
        self.server
            .take_invalidation(self.me, number, &pair, &mut log)?;
        expect_made(log.made(), 1)?;
        self.expect_acknowledged(input, told(version))
    }

    // The number by which an invalidation is refused where 4 messages of 12 are made, and 8 free,
    // if it is.
    pub(crate) fn invalidation_refused(
        &mut self,
        input: u8,
        version: Version,
    ) -> Result<Option<u8>, Fail> {
        let number = InputNumber::try_from(input)?;
        let pair = self.pair(version)?;
        let mut log = Log::new(&mut self.log, 4);
        let said = self
            .server
            .take_invalidation(self.me, number, &pair, &mut log);
        Ok(said.err().map(|refusal| refusal.number()))
    }

    // As the tests of input servers have it: no crate of tests stands on another.
    pub(crate) fn expect(&self, place: usize, message: Message) -> Result<(), Fail> {
        expect_same(
            format_args!("message {place} of the step"),
            &self.log.get(place),
            &Some(&message),
        )
    }

    // That the step logged an acknowledgement of that list.
    pub(crate) fn expect_acknowledged(&self, input: u8, list: Pairs) -> Result<(), Fail> {
        self.expect(
            0,
            Message::InvalidationAnswer {
                output: 4,
                input,
                list,
            },
        )
    }

    // That a read is answered by that version and value.
    pub(crate) fn expect_read(&mut self, version: Version, value: u64) -> Result<(), Fail> {
        expect_made(self.read()?, 1)?;
        self.expect(
            0,
            Message::ReadAnswer {
                output: 4,
                operation: 9,
                version,
                value,
            },
        )
    }

    // That a read makes one renewal request alone: to that input server, for those parts, stamped
    // with that clock.
    pub(crate) fn expect_asked(&mut self, input: u8, parts: Parts, stamp: u64) -> Result<(), Fail> {
        expect_made(self.read()?, 1)?;
        self.expect_request(0, input, parts, stamp)
    }

    pub(crate) fn expect_request(
        &self,
        place: usize,
        input: u8,
        parts: Parts,
        stamp: u64,
    ) -> Result<(), Fail> {
        self.expect(
            place,
            Message::RenewalRequest {
                output: 4,
                input,
                renewal: Renewal {
                    parts,
                    object: 3,
                    stamp: Time(stamp),
                },
            },
        )
    }
}

// A list with object 3 alone.
pub(crate) fn told(version: Version) -> Pairs {
    Pairs::one(Pair { object: 3, version })
}

// That what is found there is what is wanted.
pub(crate) fn expect_same<T: PartialEq + Debug>(
    place: impl Display + Drop,
    found: &T,
    wanted: &T,
) -> Result<(), Fail> {
    if found == wanted {
        return Ok(());
    }
    Err(Fail::new(format_args!("{place}: {found:?}, and not {wanted:?}")))
}

// That a step logged so many messages.
pub(crate) fn expect_made(found: usize, wanted: usize) -> Result<(), Fail> {
    expect_same("messages of the step", &found, &wanted)
}
