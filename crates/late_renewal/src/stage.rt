// The two servers with their log, and what can happen to them. Every message stays in the log under
// its number, and is delivered when the story says so, or never.
use crate::stop::Stop;
use crate::words::{Versions, Words};
use input_server::{InputServer, RenewalRequest, WriteRequest};
use numbers::{
    Drift, InputNumber, LeaseLength, Moment, ObjectNumber, OperationNumber, OutputNumber,
    ServerCount, Time, Version,
};
use output_server::OutputServer;
use quorum::{Majority, Refusal};
use rules::{InRange, Log, Message, Pair, Pairs, Renewal, Renewed};

#[derive(Drop)]
pub(crate) struct Stage {
    input: InputServer,
    output: OutputServer,
    inputs: Majority,
    outputs: ServerCount,
    // each server's number is 0
    input_number: InputNumber,
    output_number: OutputNumber,
    object: ObjectNumber,
    lease: LeaseLength,
    drift: Drift,
    // what each step is lent as a `Log`, which ends with the step: the places, and how many are
    // made; each lends it in a line of its own, since a method that did so would lend the servers
    // with it
    log: [Message; 32],
    made: usize,
}

impl Stage {
    pub(crate) fn new() -> Result<Stage, Stop> {
        let clock = Moment::try_from(Time::ZERO)?;
        Ok(Stage {
            input: InputServer::new(clock),
            output: OutputServer::new(clock),
            inputs: Majority::new(1)?,
            outputs: ServerCount::try_from(1)?,
            input_number: InputNumber::try_from(0)?,
            output_number: OutputNumber::try_from(0)?,
            object: ObjectNumber::try_from(0)?,
            lease: LeaseLength::try_from(1_000)?,
            drift: Drift::try_from(10)?,
            log: [Message::BLANK; 32],
            made: 0,
        })
    }

    // Time passes, for both servers alike.
    pub(crate) fn advance(&mut self, increment: u64) -> Result<(), Stop> {
        self.input.tick(increment)?;
        self.output.tick(increment)?;
        Ok(())
    }

    // That version of the object.
    fn pair(&self, version: Version) -> Result<InRange<Pair>, Stop> {
        Ok(InRange::alone(Pair {
            object: self.object.get(),
            version,
        })?)
    }

    // Begins a line with the clock.
    fn begin(&self, rt: &impl Print) -> Result<(), Stop> {
        let clock = self.input.clock();
        print!(rt; "{clock:>5}  ")?;
        Ok(())
    }

    // Ends a line with the messages made since so many.
    fn end(&self, rt: &impl Print, before: usize) -> Result<(), Stop> {
        for (place, message) in self.log.iter().enumerate().take(self.made).skip(before) {
            let words = Words(message);
            let number = place + 1;
            print!(rt; ", {words} [{number}]")?;
        }
        println!(rt)?;
        Ok(())
    }

    // A read request reaches the output server.
    pub(crate) fn read(&mut self, rt: &impl Print) -> Result<(), Stop> {
        self.begin(rt)?;
        print!(rt; "output server is read")?;
        let before = self.made;
        let mut log = Log::new(&mut self.log, before);
        self.output.answer_read(
            self.output_number,
            &self.inputs,
            OperationNumber::try_from(3)?,
            self.object,
            &mut log,
        )?;
        self.made = log.made();
        self.end(rt, before)
    }

    // A write request reaches the input server.
    pub(crate) fn write(
        &mut self,
        rt: &impl Print,
        operation: u16,
        version: Version,
        value: u64,
    ) -> Result<(), Stop> {
        self.begin(rt)?;
        print!(rt; "input server is asked to write version {version} with value {value}")?;
        let before = self.made;
        let request = WriteRequest {
            outputs: self.outputs,
            operation: OperationNumber::try_from(operation)?,
            pair: self.pair(version)?,
            value,
        };
        let mut log = Log::new(&mut self.log, before);
        self.input
            .take_write(self.input_number, &request, &mut log)?;
        self.made = log.made();
        self.end(rt, before)
    }

    // A message reaches the server that it is for.
    pub(crate) fn deliver(&mut self, rt: &impl Print, number: usize) -> Result<(), Stop> {
        if number < 1 || number > self.log.len() {
            return Err(Stop::Refused(Refusal::NoSuchMessage));
        }
        self.begin(rt)?;
        print!(rt; "[{number}] ")?;
        let before = self.made;
        match self.log[number - 1] {
            Message::RenewalRequest { renewal, .. } => self.asked(rt, renewal)?,
            Message::RenewalAnswer { renewed, .. } => self.renewed(rt, renewed)?,
            Message::Invalidation { version, .. } => self.told(rt, version)?,
            Message::InvalidationAnswer { list, .. } => self.acknowledged(rt, list)?,
            // no other kind is for one of the two
            _ => return Err(Stop::Refused(Refusal::NoSuchMessage)),
        }
        self.end(rt, before)
    }

    // A renewal request reaches the input server.
    fn asked(&mut self, rt: &impl Print, renewal: Renewal) -> Result<(), Stop> {
        let before = self.made;
        let request = RenewalRequest {
            output: self.output_number,
            renewal: InRange::alone(renewal)?,
            lease: self.lease,
        };
        let mut log = Log::new(&mut self.log, before);
        self.input
            .answer_renewal(self.input_number, &request, &mut log)?;
        self.made = log.made();
        print!(rt; "reaches the input server")?;
        if self.grants(before) {
            let now = Moment::try_from(self.input.clock())?;
            let until = now.plus(self.lease);
            print!(rt; ", which counts on a lease until {until}")?;
        }
        Ok(())
    }

    // Whether the message at that place grants a lease.
    fn grants(&self, place: usize) -> bool {
        let message = self.log.get(place);
        matches!(message, Some(Message::RenewalAnswer { renewed, .. }) if renewed.length > 0)
    }

    // An invalidation reaches the output server.
    fn told(&mut self, rt: &impl Print, version: Version) -> Result<(), Stop> {
        print!(rt; "reaches the output server")?;
        let pair = self.pair(version)?;
        let mut log = Log::new(&mut self.log, self.made);
        self.output
            .take_invalidation(self.output_number, self.input_number, &pair, &mut log)?;
        self.made = log.made();
        Ok(())
    }

    // An acknowledgement reaches the input server.
    fn acknowledged(&mut self, rt: &impl Print, list: Pairs) -> Result<(), Stop> {
        let versions = Versions(list);
        print!(rt;
            "reaches the input server, which notes that the output server knows {versions}"
        )?;
        self.input
            .take_acknowledgement(self.output_number, &InRange::alone(list)?);
        Ok(())
    }

    // A renewal answer reaches the output server.
    fn renewed(&mut self, rt: &impl Print, renewed: Renewed) -> Result<(), Stop> {
        let renewed = InRange::alone(renewed)?;
        print!(rt; "reaches the output server")?;
        if renewed.length().micros() > 0 {
            let until = renewed.stamp().lease_end(renewed.length(), self.drift);
            print!(rt; ", which counts on a lease until {until}")?;
        }
        let mut log = Log::new(&mut self.log, self.made);
        self.output.take_renewal(
            self.output_number,
            self.input_number,
            &renewed,
            self.drift,
            &mut log,
        )?;
        self.made = log.made();
        Ok(())
    }
}
