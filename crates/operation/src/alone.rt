// What a state that is kept alone accepts.
ghost use Rattle.std.specs.Prelude.{◌≡◌, ◌↔◌, ◌&&◌, ◌==◌, IsTrue, IsNone, IfSome};
ghost use Rattle.numbers.specs.Numbers.{between};
ghost use Rattle.rules.specs.Operation.{Operation};
ghost use Rattle.rules.specs.Ranges.{operation_fits, state_fits, has_next_clock};
ghost use Rattle.operation.specs.Alone.{too_many, widest, own_number, refusal_alone};
ghost use Rattle.rules.specs.Counts.{counts_of};
ghost use Rattle.operation.specs.Says.{Accepted};

use numbers::{Kind, ObjectCount, ObjectIndex, ServerCount};
use quorum::{QuorumSystem, Refusal, Systems};
use rules::{Counts, MOST_OPERATIONS, Message};

// The widest ranges that a field over these systems has: none, where one has more members than a
// field has servers on a side.
fn widest<I: QuorumSystem, O: QuorumSystem>(systems: &Systems<I, O>) -> Option<Counts>
    ensures none { let inputs = I.meaning systems.now.inputs in
        let outputs = O.meaning systems.now.outputs in
        IsNone result ↔ IsTrue (too_many inputs outputs) }
    ensures some { let inputs = I.meaning systems.now.inputs in
        let outputs = O.meaning systems.now.outputs in
        IfSome result (λ c. counts_of c ≡ widest inputs outputs) }
{
    Some(Counts {
        inputs: ServerCount::try_from(systems.inputs.count()).ok()?,
        outputs: ServerCount::try_from(systems.outputs.count()).ok()?,
        objects: ObjectCount::try_from(ObjectIndex::LIMIT).ok()?,
    })
}

// A state of an operation: what it means to the rules, and so which messages it accepts.
pub(crate) trait State: Sized {
    ghost meaning: { Self → Operation };

    // The number of the operation whose state this is. Each state reads a field of its own for it.
    fn own_number(&self) -> u16
        ensures { result ≡ own_number (meaning self.now) };

    // Whether the state is in range as that of the operation with this number.
    fn fits(&self, counts: Counts, operation: u16) -> bool
        ensures { result ≡ state_fits (counts_of counts) operation (meaning self.now) };

    // Whether there is a clock above the one that an asking write gathered.
    fn has_next_clock(&self) -> bool
        ensures { result ≡ has_next_clock (meaning self.now) };

    // Whether the operation that the message names, if it names one, is this one, begun and in
    // range, with room for a version where the message is a clock answer.
    final fn is_named(&self, message: &Message, counts: Counts) -> bool
        ensures { let state = meaning self.now in
            let own = own_number state in
            let fits = state_fits (counts_of counts) own state in
            result
            ≡ operation_fits (λ p. (p == own) && (between 1 1024 own && fits))
            (λ _. has_next_clock state) message.now }
    {
        let Some(operation) = message.operation() else {
            return true;
        };
        let own = self.own_number();
        let begun = operation == own
            && (1..=MOST_OPERATIONS).contains(&own)
            && self.fits(counts, own);
        match message {
            Message::ClockAnswer { .. } => begun && self.has_next_clock(),
            _ => begun,
        }
    }

    // The state itself where it takes the message, and beside the refusal otherwise: of a system
    // that is too large, then of a number out of range.
    final fn accept<I: QuorumSystem, O: QuorumSystem>(
        self,
        message: &Message,
        systems: &Systems<I, O>,
    ) -> Result<Self, (Refusal, Self)>
        ensures { let inputs = I.meaning systems.now.inputs in
            let outputs = O.meaning systems.now.outputs in
            Accepted (refusal_alone inputs outputs (meaning self) message.now) self result }
    {
        let Some(counts) = widest(systems) else {
            return Err((Refusal::TooManyMembers, self));
        };
        if counts.fit(message) && self.is_named(message, counts) {
            Ok(self)
        } else {
            Err((Refusal::OutOfRange, self))
        }
    }
}
