// The servers of a field stand in two tables, one for each side. What a field does with all servers
// of a side is the same for input servers and for output servers.
ghost use Rattle.std.specs.Prelude.{◌≡◌, ℕ, ◌+◌, ◌≤◌, true, if◌then◌else◌, [], ◌∷◌, Some, None, length, map, nat_le, nat_lt, slice_index_or};
ghost use Rattle.numbers.specs.declared.time.Time.{Time as LocalTime};
ghost use Rattle.numbers.specs.Numbers.{last_time};
ghost use Rattle.input_server.specs.Views.{input_of};
ghost use Rattle.output_server.specs.Views.{output_of};
ghost use Rattle.rules.specs.Input.{Input, first_input, later_input};
ghost use Rattle.rules.specs.Output.{Output, first_output, later_output};
ghost use Rattle.rules.specs.Lists.{each};
ghost use Rattle.field.specs.Servers.{starts_at, all_stay, all_later};

use input_server::InputServer;
use numbers::{Moment, ServerCount, Time};
use output_server::OutputServer;
use rules::SERVERS;
use std::array;

// A server of either side: it has a clock.
pub(crate) trait Server {
    // a server as the rules speak of it
    ghost Kept: { Type 0 };

    ghost kept: { Self → Kept };
    // its first state, with that clock
    ghost first: { LocalTime → Kept };
    // what its clock shows
    ghost shows: { Kept → LocalTime };
    // the same server so much later
    ghost later: { ℕ → Kept → Kept };

    fn starting(clock: Moment) -> Self
        ensures { kept result ≡ first (record { 0 = clock.micros }) };

    fn clock(&self) -> Time
        ensures { result ≡ shows (kept self.now) };

    // Time passes. The clock has to be able to show the time then.
    fn pass(&mut self, increment: u64)
        requires { nat_le ((shows (kept self.old)).0 + increment) last_time ≡ true }
        ensures { kept self.new ≡ later increment (kept self.old) };
}

impl Server for InputServer {
    ghost Kept = { Input };

    ghost kept = { input_of };

    ghost first = { first_input };

    ghost shows = { λ I. I.clock };

    ghost later = { later_input };

    fn starting(clock: Moment) -> InputServer {
        InputServer::new(clock)
    }

    fn clock(&self) -> Time {
        self.clock()
    }

    fn pass(&mut self, increment: u64) {
        self.tick(increment).unwrap();
    }
}

// It reads as the other one: each names its own server's words of the rules.
impl Server for OutputServer {
    ghost Kept = { Output };

    ghost kept = { output_of };

    ghost first = { first_output };

    ghost shows = { λ O. O.clock };

    ghost later = { later_output };

    fn starting(clock: Moment) -> OutputServer {
        OutputServer::new(clock)
    }

    fn clock(&self) -> Time {
        self.clock()
    }

    fn pass(&mut self, increment: u64) {
        self.tick(increment).unwrap();
    }
}

// Server i starts with the clock at place i, and with 0 where there is none.
pub(crate) fn start<S: Server>(clocks: &[Time]) -> [S; SERVERS]
    ensures { map S.kept result ≡ each 8 (λ i. S.first (starts_at clocks.now i) ∷ []) }
{
    array::from_fn(|i| S::starting(start_clock(clocks, i)))
}

fn start_clock(clocks: &[Time], place: usize) -> Moment
    ensures { record { 0 = result.micros } ≡ starts_at clocks.now place }
{
    let time = clocks.get(place).copied().unwrap_or(Time::ZERO);
    Moment::try_from(time).unwrap_or(Moment::ZERO)
}

// The clock of the server with that number, if there is one.
pub(crate) fn clock_at<S: Server>(
    servers: &[S; SERVERS],
    count: ServerCount,
    number: u8,
) -> Option<Time>
    ensures { let first = S.first (record { 0 = 0 }) in
        let at : S.Kept = slice_index_or (map S.kept servers.now) number first in
        result ≡ (if nat_lt number count.number then Some (S.shows at) else None) }
{
    if number < count.get() {
        Some(servers[number as usize].clock())
    } else {
        None
    }
}

// Whether a clock that is so much later can still be shown.
fn stays(clock: Time, increment: u64) -> bool
    ensures { result ≡ nat_le (clock.0 + increment) last_time }
{
    Moment::try_from(clock).is_ok_and(|moment| moment.later(increment).is_some())
}

// Whether the clock of each of the first servers can still be shown once it has moved by its
// increment.
pub(crate) fn all_stay<S: Server>(servers: &[S; SERVERS], increments: &[u64]) -> bool
    requires { length increments.now ≤ 8 }
    ensures { let first = S.first (record { 0 = 0 }) in
        result ≡ all_stay S.shows first increments.now (map S.kept servers.now) }
{
    servers
        .iter()
        .zip(increments)
        .all(|(server, increment)| stays(server.clock(), *increment))
}

// Each of the first servers moves by its increment.
pub(crate) fn tick_all<S: Server>(servers: &mut [S; SERVERS], increments: &[u64])
    requires few { length increments.now ≤ 8 }
    requires stay { let first = S.first (record { 0 = 0 }) in
        all_stay S.shows first increments.now (map S.kept servers.old) ≡ true }
    ensures { let first = S.first (record { 0 = 0 }) in
        let micros = increments.now in
        map S.kept servers.new
        ≡ all_later S.later first micros (length micros) (map S.kept servers.old) }
{
    // by place: a proof knows nothing of the servers after `iter_mut().zip(..)`
    for (place, increment) in increments.iter().enumerate() {
        servers[place].pass(*increment);
    }
}
