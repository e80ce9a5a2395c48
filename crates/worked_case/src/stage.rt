// The field with what it is lent: its log, its table and its two systems.
use anyhow::{Result, bail};
use field::{Field, Opening};
use numbers::Time;
use operation::Operation;
use quorum::{Majority, Systems};
use rules::{Delivery, Message};
use std::alloc::Global;
use wording::{Told, ToldEnd};

// The one object.
const OBJECT: u64 = 0;

// Both programs that run a field have such a type, each over its own systems: it shows all that a
// caller keeps.
#[derive(Drop)]
pub(crate) struct Stage {
    field: Field,
    log: Vec<Message>,
    table: Vec<Operation>,
    systems: Systems<Majority, Majority>,
}

impl Stage {
    pub(crate) fn open(alloc: Global) -> Result<Stage> {
        let mut stage = Stage {
            field: Field::new(),
            log: (0..24).map(|_| Message::BLANK).collect(alloc)?,
            table: (0..2).map(|_| Operation::Unused).collect(alloc)?,
            systems: Systems {
                inputs: Majority::new(1)?,
                outputs: Majority::new(1)?,
            },
        };
        let opening = Opening {
            objects: 1,
            lease: 1_000,
            drift: 10,
        };
        stage.field.open(
            &stage.log,
            &stage.table,
            &stage.systems,
            opening,
            &[Time::ZERO, Time::ZERO],
        )?;
        Ok(stage)
    }

    pub(crate) fn begin_write(&mut self, rt: &impl Print, value: u64) -> Result<u16> {
        let write = self.field.begin_write(
            &mut self.log,
            &mut self.table,
            &self.systems,
            OBJECT,
            value,
        )?;
        println!(rt; "write {write} begins: value {value}")?;
        Ok(write)
    }

    pub(crate) fn begin_read(&mut self, rt: &impl Print) -> Result<u16> {
        let read = self
            .field
            .begin_read(&mut self.log, &mut self.table, &self.systems, OBJECT)?;
        println!(rt; "read {read} begins")?;
        Ok(read)
    }

    // Delivers a message, and tells it and what ended with it, which has to be what is expected.
    pub(crate) fn deliver(
        &mut self,
        rt: &impl Print,
        number: u64,
        expected: Delivery,
    ) -> Result<()> {
        let delivery = self
            .field
            .deliver(&mut self.log, &mut self.table, &self.systems, number)?;
        if let Some(message) = self.log.get(number.saturating_sub(1) as usize) {
            let told = Told::new(number, message);
            println!(rt; "  {told}")?;
        }
        if delivery != expected {
            bail!("the answer to message {number} is not the one expected");
        }
        if delivery != Delivery::NothingEnded {
            let ended = ToldEnd::new(delivery);
            println!(rt; "{ended}")?;
        }
        Ok(())
    }
}
