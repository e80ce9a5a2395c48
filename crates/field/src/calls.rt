// The calls of a field. Each is lent the log of messages, the table of operations and the two
// quorum systems. For any field, log, table and systems whatsoever it promises three things:
// `does`, that its answer and all that it leaves are what the rules say; `same`, that where it
// refuses, field, log and table themselves are as they were, and not only what they mean; and
// `guaranteed`, the whole read guarantee, for every story of calls that led to the field it
// found. Each hands on what it is lent, under the same names: a field keeps the invariant and may
// not be open yet, and what is inside is of an open one. Log and table come apart, and not as one
// value, since opening and advancing only read them.
ghost use Rattle.std.specs.Prelude.{◌≡◌, OnErr};
ghost use Rattle.guarantee.specs.Story.{to_open, to_advance, to_write, to_read, to_deliver};
ghost use Rattle.rules.specs.Answers.{acceptance, beginning_says, delivery_says};
ghost use Rattle.rules.specs.Calls.{opening as opening_of, advancing, beginning_write, beginning_read, delivering};
ghost use Rattle.rules.specs.State.{outcome};
ghost use Rattle.field.specs.Fields.{lent_to};
ghost use Rattle.field.specs.Guaranteed.{Guaranteed};

use crate::field::Field;
use crate::open_field::OpenField;
use crate::opening::{Opening, check_opening};
use numbers::Time;
use operation::Operation;
use quorum::{QuorumSystem, Refusal, Systems};
use rules::{Delivery, Message};

impl Field {
    /// Opens the field over this log, this table and these systems, with one start clock for each
    /// server, the input servers first. Neither log nor table is written.
    ///
    /// Refuses by the first of these: 1 where the field is open already; 2 a system of more than
    /// 8 members; 3 objects outside 1 to 16; 4 a lease outside 1 to 1,000,000,000 microseconds; 5
    /// a drift above 999 thousandths; 6 a clock too many or too few, or one above 2^40; 7 a log
    /// outside 9 to 65,535 messages, or a table outside 1 to 1,024 operations. A refusal alters
    /// nothing.
    pub fn open<I: QuorumSystem, O: QuorumSystem>(
        &mut self,
        log: &[Message],
        table: &[Operation],
        systems: &Systems<I, O>,
        opening: Opening,
        clocks: &[Time],
    ) -> Result<(), Refusal>
        ensures does { let i = I.meaning systems.now.inputs in
            let o = O.meaning systems.now.outputs in
            opening_of i o opening.objects opening.lease opening.drift clocks.now
            (lent_to self.old log.now table.now)
            ≡ outcome (acceptance result) (lent_to self.new log.now table.now) }
        ensures same { OnErr result (self.new ≡ self.old) }
        ensures guaranteed { let x = opening in
            let call = to_open x.objects x.lease x.drift clocks.now in
            Guaranteed (I.meaning systems.now.inputs) (O.meaning systems.now.outputs) call
            (lent_to self.old log.now table.now) (acceptance result)
            (lent_to self.new log.now table.now) }
    {
        if self.inside.is_some() {
            return Err(Refusal::AlreadyOpen);
        }
        let (n, m) = (systems.inputs.count(), systems.outputs.count());
        check_opening(n, m, opening, clocks, log.len(), table.len())?;
        let inside = OpenField::new(n, m, opening, clocks, log.len(), table.len());
        self.inside = Some(inside);
        Ok(())
    }

    /// Moves every clock by its increment, in microseconds, the input servers first.
    ///
    /// Refuses by the first of these: 8 where the field is not open; 9 where log, table or
    /// systems are not as at the opening; 11 an increment too many or too few; 12 a clock would
    /// pass 2^40; 13 two increments break the drift. A refusal alters nothing.
    #[tactic(auto, using(crate::proofs::Closed::advance_closed))]
    pub fn advance<I: QuorumSystem, O: QuorumSystem>(
        &mut self,
        log: &[Message],
        table: &[Operation],
        systems: &Systems<I, O>,
        increments: &[u64],
    ) -> Result<(), Refusal>
        ensures does { let i = I.meaning systems.now.inputs in
            let o = O.meaning systems.now.outputs in
            advancing i o increments.now
            (lent_to self.old log.now table.now)
            ≡ outcome (acceptance result) (lent_to self.new log.now table.now) }
        ensures same { OnErr result (self.new ≡ self.old) }
        ensures guaranteed { let call = to_advance increments.now in
            Guaranteed (I.meaning systems.now.inputs) (O.meaning systems.now.outputs) call
            (lent_to self.old log.now table.now) (acceptance result)
            (lent_to self.new log.now table.now) }
    {
        let inside = self.inside.as_mut().ok_or(Refusal::NotOpen)?;
        inside.advance(log, table, systems, increments)
    }

    /// Begins a write of a value to an object, and gives the operation's number, 1 to 1,024. A
    /// clock question is logged for every input server.
    ///
    /// Refuses by the first of these: 8 where the field is not open; 9 where log, table or
    /// systems are not as at the opening; 21 there is no such object; 22 the table is full; 23
    /// fewer than nine places of the log are free. A refusal alters nothing.
    #[tactic(auto, using(crate::proofs::Closed::write_closed))]
    pub fn begin_write<I: QuorumSystem, O: QuorumSystem>(
        &mut self,
        log: &mut [Message],
        table: &mut [Operation],
        systems: &Systems<I, O>,
        object: u64,
        value: u64,
    ) -> Result<u16, Refusal>
        ensures does { let i = I.meaning systems.now.inputs in
            let o = O.meaning systems.now.outputs in
            beginning_write i o object value
            (lent_to self.old log.old table.old)
            ≡ outcome (beginning_says result) (lent_to self.new log.new table.new) }
        ensures same { OnErr result
            ((self.new ≡ self.old) × (log.new ≡ log.old) × (table.new ≡ table.old)) }
        ensures guaranteed { let call = to_write object value in
            Guaranteed (I.meaning systems.now.inputs) (O.meaning systems.now.outputs) call
            (lent_to self.old log.old table.old) (beginning_says result)
            (lent_to self.new log.new table.new) }
    {
        let inside = self.inside.as_mut().ok_or(Refusal::NotOpen)?;
        inside.begin_write(log, table, systems, object, value)
    }

    /// Begins a read of an object, and gives the operation's number, 1 to 1,024. A read request
    /// is logged for every output server.
    ///
    /// Refuses by the first of these: 8 where the field is not open; 9 where log, table or systems
    /// are not as at the opening; 21 there is no such object; 22 the table is full; 23 fewer than
    /// nine places of the log are free. A refusal alters nothing.
    #[tactic(auto, using(crate::proofs::Closed::read_closed))]
    pub fn begin_read<I: QuorumSystem, O: QuorumSystem>(
        &mut self,
        log: &mut [Message],
        table: &mut [Operation],
        systems: &Systems<I, O>,
        object: u64,
    ) -> Result<u16, Refusal>
        ensures does { let i = I.meaning systems.now.inputs in
            let o = O.meaning systems.now.outputs in
            beginning_read i o object
            (lent_to self.old log.old table.old)
            ≡ outcome (beginning_says result) (lent_to self.new log.new table.new) }
        ensures same { OnErr result
            ((self.new ≡ self.old) × (log.new ≡ log.old) × (table.new ≡ table.old)) }
        ensures guaranteed { let call = to_read object in
            Guaranteed (I.meaning systems.now.inputs) (O.meaning systems.now.outputs) call
            (lent_to self.old log.old table.old) (beginning_says result)
            (lent_to self.new log.new table.new) }
    {
        let inside = self.inside.as_mut().ok_or(Refusal::NotOpen)?;
        inside.begin_read(log, table, systems, object)
    }

    /// Delivers the message with that number, counted from 1, to the server or operation that it
    /// is for, and says whether an operation ended with it. What they answer is logged.
    ///
    /// Refuses by the first of these: 8 where the field is not open; 9 where log, table or
    /// systems are not as at the opening; 31 there is no such message; 32 fewer than nine places
    /// of the log are free; 33 a number of the message, or of the operation that it names, is out
    /// of range. A refusal alters nothing.
    #[tactic(auto, using(crate::proofs::Closed::delivery_closed))]
    pub fn deliver<I: QuorumSystem, O: QuorumSystem>(
        &mut self,
        log: &mut [Message],
        table: &mut [Operation],
        systems: &Systems<I, O>,
        number: u64,
    ) -> Result<Delivery, Refusal>
        ensures does { let i = I.meaning systems.now.inputs in
            let o = O.meaning systems.now.outputs in
            delivering i o number
            (lent_to self.old log.old table.old)
            ≡ outcome (delivery_says result) (lent_to self.new log.new table.new) }
        ensures same { OnErr result
            ((self.new ≡ self.old) × (log.new ≡ log.old) × (table.new ≡ table.old)) }
        ensures guaranteed { let call = to_deliver number in
            Guaranteed (I.meaning systems.now.inputs) (O.meaning systems.now.outputs) call
            (lent_to self.old log.old table.old) (delivery_says result)
            (lent_to self.new log.new table.new) }
    {
        let inside = self.inside.as_mut().ok_or(Refusal::NotOpen)?;
        inside.deliver(log, table, systems, number)
    }
}
