// How many servers and objects a field has, and which messages have all their numbers in range of
// them.
ghost use Rattle.std.specs.Prelude.{◌≡◌, ℕ, ◌≤◌, ◌&&◌, is_none, is_some, ◌||◌, nat_lt};
ghost use Rattle.numbers.specs.Numbers.{between};
ghost use Rattle.rules.specs.Counts.{counts_of};
ghost use Rattle.rules.specs.Ranges.{ends, numbers_fit, named_in, TestsRange};

use crate::in_range::{InRange, Ranged};
use crate::message::Message;
use numbers::{InputNumber, Kind, Number, ObjectCount, ObjectNumber, OutputNumber, ServerCount};
use quorum::Refusal;

/// How many input servers, output servers and objects there are: numbers are held to these.
#[derive(Clone, Copy, Debug, PartialEq, Eq)]
pub struct Counts {
    /// Input servers: 0 to 8.
    pub inputs: ServerCount,
    /// Output servers: 0 to 8.
    pub outputs: ServerCount,
    /// Objects: 0 to 16.
    pub objects: ObjectCount,
}

/// The ends of a message between two servers and what it carries, each tested once.
#[derive(Clone, Copy)]
pub struct Between<T: Ranged> {
    /// The input server.
    pub input: InputNumber,
    /// The output server.
    pub output: OutputNumber,
    /// What the message carries.
    pub carried: InRange<T>,
}

impl Counts {
    /// The input server with that number. Refuses 33 where there is none.
    pub fn input(self, number: u8) -> Result<InputNumber, Refusal>
        ensures { TestsRange (λ i. i.number) (nat_lt number (counts_of self).n) number result }
    {
        numbered(number, self.inputs.get())
    }

    /// The output server with that number. Refuses 33 where there is none.
    pub fn output(self, number: u8) -> Result<OutputNumber, Refusal>
        ensures { TestsRange (λ j. j.number) (nat_lt number (counts_of self).m) number result }
    {
        numbered(number, self.outputs.get())
    }

    /// The object with that number. Refuses 33 where there is none.
    pub fn object(self, number: u8) -> Result<ObjectNumber, Refusal>
        ensures { TestsRange (λ o. o.number) (nat_lt number (counts_of self).k) number result }
    {
        numbered(number, self.objects.get())
    }

    /// Both ends of a message between two servers, and what it carries. Refuses 33 where there is
    /// no such server, or where a number of what is carried is out of range.
    pub fn between<T: Ranged>(
        self,
        input: u8,
        output: u8,
        carried: T,
    ) -> Result<Between<T>, Refusal>
        ensures { let c = counts_of self in
            TestsRange {B = ℕ × ℕ × T} (λ b. (b.input.number, b.output.number, b.carried.value))
            (ends c input output && T.fits c.k carried) (input, output, carried) result }
    {
        if !carried.fits(self.objects) {
            return Err(Refusal::OutOfRange);
        }
        Ok(Between {
            input: self.input(input)?,
            output: self.output(output)?,
            // made here: through `InRange::new` what an answer brings would be copied twice more
            carried: InRange { value: carried },
        })
    }

    /// Whether every number of the message is in range, but for the operation that it names.
    pub fn fit(self, message: &Message) -> bool
        ensures { result ≡ numbers_fit (counts_of self) message.now }
    {
        self.fit_operation(message) && self.fit_servers(message)
    }

    fn has_input(self, number: u8) -> bool
        ensures { result ≡ nat_lt number (counts_of self).n }
    {
        number < self.inputs.get()
    }

    fn has_output(self, number: u8) -> bool
        ensures { result ≡ nat_lt number (counts_of self).m }
    {
        number < self.outputs.get()
    }

    fn has_object(self, number: u8) -> bool
        ensures { result ≡ nat_lt number (counts_of self).k }
    {
        number < self.objects.get()
    }

    fn has_ends(self, input: u8, output: u8) -> bool
        ensures { result ≡ ends (counts_of self) input output }
    {
        self.has_input(input) && self.has_output(output)
    }

    // The same of a message from or to an operation; every other message passes.
    fn fit_operation(self, message: &Message) -> bool
        ensures { result
            ≡ (is_none (named_in message.now) || numbers_fit (counts_of self) message.now) }
    {
        match message {
            Message::ClockQuestion { input, .. } => self.has_input(*input),
            Message::ClockAnswer { input, clock, .. } => {
                self.has_input(*input) && is_answered(*clock)
            }
            Message::WriteRequest {
                input,
                object,
                version,
                ..
            } => self.has_input(*input) && self.has_object(*object) && version.is_version(),
            Message::WriteAnswer {
                input,
                shut_out,
                ..
            } => self.has_input(*input) && shut_out.is_within(self.outputs.get()),
            Message::ReadRequest { output, object, .. } => {
                self.has_output(*output) && self.has_object(*object)
            }
            Message::ReadAnswer {
                output,
                version,
                ..
            } => self.has_output(*output) && version.is_version(),
            _ => true,
        }
    }

    // The same of a message between two servers; every other message passes.
    fn fit_servers(self, message: &Message) -> bool
        ensures { result
            ≡ (is_some (named_in message.now) || numbers_fit (counts_of self) message.now) }
    {
        match message {
            Message::RenewalRequest {
                output,
                input,
                renewal,
            } => self.has_ends(*input, *output) && renewal.fits(self.objects),
            Message::RenewalAnswer {
                input,
                output,
                renewed,
            } => self.has_ends(*input, *output) && renewed.fits(self.objects),
            Message::Invalidation {
                input,
                output,
                object,
                version,
            } => {
                self.has_ends(*input, *output) && self.has_object(*object) && version.is_version()
            }
            Message::InvalidationAnswer {
                output,
                input,
                list,
            } => self.has_ends(*input, *output) && list.fits(self.objects),
            _ => true,
        }
    }
}

// A number below a count that is within the limit of its kind.
fn numbered<K: Kind>(number: u8, count: u8) -> Result<Number<K>, Refusal>
    requires { count ≤ K.LIMIT }
    ensures { TestsRange (λ n. n.number) (nat_lt number count) number result }
{
    if number >= count {
        return Err(Refusal::OutOfRange);
    }
    Number::try_from(number).map_err(|_| Refusal::OutOfRange)
}

// Whether an input server can answer with the clock, so that there is a clock above it.
fn is_answered(clock: u16) -> bool
    ensures { result ≡ between 1 65534 clock }
{
    (1..=65_534).contains(&clock)
}
