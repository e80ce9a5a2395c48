// The field with what it is lent, and what a story can do with it. A message is delivered when the
// story says so, or never.
use crate::group::{Group, Which};
use crate::seconds::Seconds;
use anyhow::{Result, bail};
use field::{Field, Opening};
use numbers::{Time, Version};
use operation::Operation;
use quorum::{Majority, ReadOneWriteAll, Systems};
use rules::{Delivery, Message};
use std::alloc::Global;
use wording::{Told, ToldEnd};

pub(crate) const SERVERS: u8 = 8;

pub(crate) const OBJECTS: u8 = 16;

// How long a lease lasts.
const MINUTE: u64 = 60_000_000;

// Both programs that run a field have such a type, each over its own systems: it shows all that a
// caller keeps.
#[derive(Drop)]
pub(crate) struct Site {
    field: Field,
    log: Vec<Message>,
    table: Vec<Operation>,
    systems: Systems<Majority, ReadOneWriteAll>,
}

// How a read went at a tower.
#[derive(Clone, Copy)]
pub(crate) struct Reading {
    pub(crate) version: Version,
    // how many renewals the tower asked for
    pub(crate) renewals: u64,
}

// What came of the messages that were delivered.
#[derive(Clone, Copy)]
pub(crate) struct Step {
    pub(crate) made: Group,
    pub(crate) ended: Delivery,
}

impl Site {
    pub(crate) fn open(alloc: Global) -> Result<Site> {
        let mut site = Site {
            field: Field::new(),
            log: (0..2_048).map(|_| Message::BLANK).collect(alloc)?,
            table: (0..128).map(|_| Operation::Unused).collect(alloc)?,
            systems: Systems {
                inputs: Majority::new(SERVERS as u64)?,
                outputs: ReadOneWriteAll::new(SERVERS as u64)?,
            },
        };
        let opening = Opening {
            objects: OBJECTS as u64,
            lease: MINUTE,
            drift: 10,
        };
        let clocks = [Time::ZERO; 16];
        site.field
            .open(&site.log, &site.table, &site.systems, opening, &clocks)?;
        Ok(site)
    }

    // Time passes: so much for every server but the tower, whose clock is slower.
    pub(crate) fn advance(
        &mut self,
        rt: &impl Print,
        tower: u8,
        others: u64,
        slower: u64,
    ) -> Result<()> {
        let mut increments = [others; 16];
        if let Some(increment) = increments.get_mut(SERVERS as usize + tower as usize) {
            *increment = slower;
        }
        self.field
            .advance(&self.log, &self.table, &self.systems, &increments)?;
        self.tell_clocks(rt, tower)
    }

    pub(crate) fn tell_clocks(&self, rt: &impl Print, tower: u8) -> Result<()> {
        let clocks = (self.field.input_clock(0), self.field.output_clock(tower));
        let (Some(input), Some(output)) = clocks else {
            bail!("there is no tower {tower}");
        };
        let input = Seconds(input);
        let output = Seconds(output);
        println!(rt; "Clocks: tower {tower} {output}, every other server {input}.")?;
        Ok(())
    }

    // The messages that were made after so many.
    fn made_after(&self, before: u64) -> Group {
        Group {
            first: before.saturating_add(1),
            last: self.field.messages_made(),
        }
    }

    fn hand(&mut self, number: u64) -> Result<Delivery> {
        Ok(
            self.field
                .deliver(&mut self.log, &mut self.table, &self.systems, number)?,
        )
    }

    // Begins a write, and gives its clock questions.
    pub(crate) fn begin_write(&mut self, rt: &impl Print, object: u8, value: u64) -> Result<Group> {
        let before = self.field.messages_made();
        let write = self.field.begin_write(
            &mut self.log,
            &mut self.table,
            &self.systems,
            object as u64,
            value,
        )?;
        println!(rt; "  write {write} of value {value} to object {object} begins")?;
        Ok(self.made_after(before))
    }

    // Delivers those of the messages that are to be delivered, and tells the first of them and what
    // ended.
    pub(crate) fn deliver(&mut self, rt: &impl Print, group: Group, which: Which) -> Result<Step> {
        let before = self.field.messages_made();
        // counted by hand: an iterator that looks for the messages to deliver would keep the log
        // lent
        let mut count: u64 = 0;
        let mut ended = Delivery::NothingEnded;
        for number in group.first..=group.last {
            let Some(message) = self.log.get(number.saturating_sub(1) as usize) else {
                bail!("there is no message {number}");
            };
            if !which.takes(message) {
                continue;
            }
            if count == 0 {
                let told = Told::new(number, message);
                print!(rt; "  {told}")?;
            }
            count = count.saturating_add(1);
            let delivery = self.hand(number)?;
            if delivery != Delivery::NothingEnded {
                ended = delivery;
            }
        }
        end_line(rt, count, ended)?;
        Ok(Step {
            made: self.made_after(before),
            ended,
        })
    }

    // Delivers all of the messages, and tells nothing.
    fn hand_all(&mut self, group: Group) -> Result<Group> {
        let before = self.field.messages_made();
        for number in group.first..=group.last {
            self.hand(number)?;
        }
        Ok(self.made_after(before))
    }

    // Begins a read of which one tower alone is asked, and gives the message that asks it.
    pub(crate) fn begin_read(&mut self, tower: u8, object: u8) -> Result<u64> {
        let before = self.field.messages_made();
        self.field.begin_read(&mut self.log, &mut self.table, &self.systems, object as u64)?;
        Ok(before.saturating_add(tower as u64 + 1))
    }

    // A tower is asked, and answers or asks for renewals, which is told.
    pub(crate) fn ask(&mut self, rt: &impl Print, request: u64) -> Result<Group> {
        let before = self.field.messages_made();
        self.hand(request)?;
        let made = self.made_after(before);
        if let Some(told) = self.renewal(made.first) {
            print!(rt; "  {told}")?;
            end_line(rt, made.len(), Delivery::NothingEnded)?;
        }
        Ok(made)
    }

    // A tower is asked, renews what it has to renew, is asked again, and answers.
    pub(crate) fn pursue(&mut self, rt: &impl Print, request: u64, object: u8) -> Result<Reading> {
        let mut made = self.ask(rt, request)?;
        let mut renewals = 0;
        if self.renewal(made.first).is_some() {
            renewals = made.len();
            let answers = self.hand_all(made)?;
            let known = self.hand_all(answers)?;
            self.hand_all(known)?;
            made = self.ask(rt, request)?;
        }
        let delivery = self.hand(made.last)?;
        let Delivery::ReadEnded { version, .. } = delivery else {
            bail!("the tower did not answer");
        };
        let ended = ToldEnd::new(delivery);
        println!(rt; "  object {object}: {ended}")?;
        Ok(Reading { version, renewals })
    }

    pub(crate) fn read(&mut self, rt: &impl Print, tower: u8, object: u8) -> Result<Reading> {
        let request = self.begin_read(tower, object)?;
        self.pursue(rt, request, object)
    }

    // A message in words, if it asks for a renewal.
    fn renewal(&self, number: u64) -> Option<Told<'_>> {
        let message = self.log.get(number.saturating_sub(1) as usize)?;
        match message {
            Message::RenewalRequest { .. } => Some(Told::new(number, message)),
            _ => None,
        }
    }
}

// Ends a line that tells one message of so many, and says what ended.
fn end_line(rt: &impl Print, count: u64, ended: Delivery) -> Result<()> {
    match count {
        0 => println!(rt; "  no message")?,
        1 => println!(rt)?,
        _ => {
            let more = count - 1;
            println!(rt; ", and {more} more like it")?;
        }
    }
    if ended != Delivery::NothingEnded {
        let ended = ToldEnd::new(ended);
        println!(rt; "  {ended}")?;
    }
    Ok(())
}
