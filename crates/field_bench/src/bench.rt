// A field on a bench: with the log, the table and the systems that it is lent, so that a test says
// only what it does.
use field::{Field, Opening};
use numbers::{Time, Version};
use operation::Operation;
use quorum::{Majority, QuorumSystem, Refusal, Systems};
use rules::{Delivery, Message};
use std::alloc::{AllocError, Global};
use std::test::Fail;

/// So many objects, a lease of 1,000 microseconds and a drift of 10 thousandths.
pub fn opening(objects: u64) -> Opening {
    Opening {
        objects,
        lease: 1_000,
        drift: 10,
    }
}

fn blank_log(alloc: Global, len: usize) -> Result<Vec<Message>, AllocError> {
    (0..len).map(|_| Message::BLANK).collect(alloc)
}

fn blank_table(alloc: Global, len: usize) -> Result<Vec<Operation>, AllocError> {
    (0..len).map(|_| Operation::Unused).collect(alloc)
}

/// What a caller owns and lends to every call.
#[derive(Drop)]
pub struct Lent<I, O> {
    pub log: Vec<Message>,
    pub table: Vec<Operation>,
    pub systems: Systems<I, O>,
}

impl<I: Drop, O: Drop> Lent<I, O> {
    /// A log and a table of these lengths, all blank, and these systems.
    pub fn new(
        alloc: Global,
        inputs: I,
        outputs: O,
        log_len: usize,
        table_len: usize,
    ) -> Result<Lent<I, O>, AllocError> {
        Ok(Lent {
            log: blank_log(alloc, log_len)?,
            table: blank_table(alloc, table_len)?,
            systems: Systems { inputs, outputs },
        })
    }
}

/// What is seen of a place of the table.
#[derive(Clone, Copy, Debug, PartialEq, Eq)]
pub enum Place {
    Unused,
    Asking,
    Sending {
        object: u8,
        version: Version,
        value: u64,
    },
    Reading,
    Ended,
}

fn place_of(operation: &Operation) -> Place {
    match operation {
        Operation::Unused => Place::Unused,
        Operation::Asking(_) => Place::Asking,
        Operation::Sending(write) => Place::Sending {
            object: write.object(),
            version: write.version(),
            value: write.value(),
        },
        Operation::Reading(_) => Place::Reading,
        Operation::Ended => Place::Ended,
    }
}

/// All that is seen of a field without its log and table.
#[derive(Clone, Copy, Debug, PartialEq, Eq)]
pub struct Looks {
    pub open: bool,
    pub inputs: u8,
    pub outputs: u8,
    pub objects: u8,
    pub made: u64,
    pub begun: u16,
}

/// A field, and what it is lent.
#[derive(Drop)]
pub struct Bench<I, O> {
    pub field: Field,
    pub lent: Lent<I, O>,
}

impl<I: QuorumSystem + Drop, O: QuorumSystem + Drop> Bench<I, O> {
    /// A field that is not yet open.
    pub fn new(lent: Lent<I, O>) -> Bench<I, O> {
        Bench {
            field: Field::new(),
            lent,
        }
    }

    /// Opens the field over what it is lent.
    pub fn open(&mut self, opening: Opening, clocks: &[Time]) -> Result<(), Refusal> {
        let lent = &self.lent;
        self.field
            .open(&lent.log, &lent.table, &lent.systems, opening, clocks)
    }

    /// Moves every clock by its increment.
    pub fn advance(&mut self, increments: &[u64]) -> Result<(), Refusal> {
        let lent = &self.lent;
        self.field
            .advance(&lent.log, &lent.table, &lent.systems, increments)
    }

    /// Begins a write of a value to an object, and gives the operation's number.
    pub fn write(&mut self, object: u64, value: u64) -> Result<u16, Refusal> {
        let lent = &mut self.lent;
        self.field.begin_write(&mut lent.log, &mut lent.table, &lent.systems, object, value)
    }

    /// Begins a read of an object, and gives the operation's number.
    pub fn read(&mut self, object: u64) -> Result<u16, Refusal> {
        let lent = &mut self.lent;
        self.field
            .begin_read(&mut lent.log, &mut lent.table, &lent.systems, object)
    }

    /// Delivers the message with that number, and says what ended with it.
    pub fn deliver(&mut self, number: usize) -> Result<Delivery, Refusal> {
        let lent = &mut self.lent;
        self.field.deliver(&mut lent.log, &mut lent.table, &lent.systems, number as u64)
    }

    /// What is seen of the field.
    pub fn looks(&self) -> Looks {
        let field = &self.field;
        Looks {
            open: field.is_open(),
            inputs: field.input_servers(),
            outputs: field.output_servers(),
            objects: field.objects(),
            made: field.messages_made(),
            begun: field.operations_begun(),
        }
    }

    /// What is seen of the clocks of the input server and of the output server with that number.
    pub fn clocks(&self, number: u8) -> [Option<Time>; 2] {
        let field = &self.field;
        [field.input_clock(number), field.output_clock(number)]
    }

    pub(crate) fn message(&self, number: usize) -> Option<&Message> {
        self.lent.log.get(number.checked_sub(1)?)
    }

    pub(crate) fn made_from(&self, first: usize) -> Option<&[Message]> {
        let last = usize::try_from(self.field.messages_made()).ok()?;
        self.lent.log.get(first.checked_sub(1)?..last)
    }

    /// What is seen of an operation's place, if the table has one for it.
    pub fn place(&self, operation: u16) -> Option<Place> {
        let place = usize::from(operation).checked_sub(1)?;
        self.lent.table.get(place).map(place_of)
    }

    /// Puts another message in the place of that one.
    pub fn put(&mut self, number: usize, message: Message) {
        if let Some(slot) = self.lent.log.get_mut(number.saturating_sub(1)) {
            *slot = message;
        }
    }

    /// Puts another message in the place of that one, and gives that one in exchange.
    pub fn swap(&mut self, number: usize, message: &mut Message) {
        if let Some(slot) = self.lent.log.get_mut(number.saturating_sub(1)) {
            std::mem::swap(slot, message);
        }
    }

    /// Puts another state in the place of an operation's.
    pub fn put_state(&mut self, operation: u16, state: Operation) {
        let place = usize::from(operation).saturating_sub(1);
        if let Some(slot) = self.lent.table.get_mut(place) {
            *slot = state;
        }
    }

    /// Opens the field with every clock at 0.
    pub fn opened(mut self, opening: Opening) -> Result<Bench<I, O>, Refusal> {
        let systems = &self.lent.systems;
        let servers = usize::from(systems.inputs.count()) + usize::from(systems.outputs.count());
        let clocks = [Time::ZERO; 16];
        let clocks = clocks.get(..servers).ok_or(Refusal::StartClocks)?;
        self.open(opening, clocks)?;
        Ok(self)
    }
}

/// A field that is not yet open, of so many servers on each side, that go by majority.
pub fn closed(
    alloc: Global,
    inputs: u8,
    outputs: u8,
    log_len: usize,
    table_len: usize,
) -> Result<Bench<Majority, Majority>, Fail> {
    let inputs = Majority::new(u64::from(inputs))?;
    let outputs = Majority::new(u64::from(outputs))?;
    let lent = Lent::new(alloc, inputs, outputs, log_len, table_len)?;
    Ok(Bench::new(lent))
}

/// The same, of two objects and open, with every clock at 0.
pub fn by_majority(
    alloc: Global,
    inputs: u8,
    outputs: u8,
) -> Result<Bench<Majority, Majority>, Fail> {
    let bench = closed(alloc, inputs, outputs, 128, 8)?;
    Ok(bench.opened(opening(2))?)
}

/// Two servers on each side, and operation 1, a write of 7 to object 0. Its two clock questions are
/// all that is made.
pub fn with_a_write(alloc: Global) -> Result<Bench<Majority, Majority>, Fail> {
    let mut bench = by_majority(alloc, 2, 2)?;
    bench.write(0, 7)?;
    Ok(bench)
}
