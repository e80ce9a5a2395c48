// What a renewal grants, and what it shows.
ghost use Rattle.std.specs.Prelude.{◌≡◌, [], Some, None, take, if◌then◌else◌};
ghost use Rattle.numbers.specs.Numbers.{shown};
ghost use Rattle.rules.specs.Lists.{pairs};
ghost use Rattle.rules.specs.Input.{chain, grants, renewed};
ghost use Rattle.rules.specs.Renewals.{asks_volume};
ghost use Rattle.input_server.specs.Renewing.{with_lease, with_given, given_of};
ghost use Rattle.input_server.specs.Views.{input_of};

use crate::requests::RenewalRequest;
use crate::server::InputServer;
use numbers::{LeaseLength, OutputNumber, Version};
use rules::{InRange, MOST_PAIRS, Newest, Pairs, Parts, Renewal, Renewed};

impl InputServer {
    // The lease that is granted, if one is: where all that waits can be told with it.
    pub(crate) fn granted(&self, request: &RenewalRequest) -> Option<LeaseLength>
        ensures { let r = request.now in
            result ≡ (if grants r.renewal.value.parts r.output.number (input_of self.now)
            then Some r.lease else None) }
    {
        let wants_lease = request.renewal.value.parts.has_volume();
        if wants_lease && self.chains.len(request.output) as usize <= MOST_PAIRS {
            Some(request.lease)
        } else {
            None
        }
    }

    // What is told with a lease.
    fn waiting_list(&self, output: OutputNumber, parts: Parts) -> Pairs
        ensures { let first = take shown (chain (input_of self.now) output.number) in
            result ≡ (if asks_volume parts then pairs first else pairs []) }
    {
        if parts.has_volume() {
            self.chains.first(output)
        } else {
            Pairs::empty()
        }
    }

    // A lease runs from now on.
    pub(crate) fn grant(&mut self, output: OutputNumber, lease: LeaseLength)
        ensures { input_of self.new ≡ with_lease lease.micros output.number (input_of self.old) }
    {
        self.ledgers[output.index()].lease_end = self.clock.plus(lease);
    }

    // The version held is given, if the object is asked for.
    pub(crate) fn give(&mut self, renewal: &InRange<Renewal>)
        ensures { input_of self.new ≡ with_given renewal.now.value (input_of self.old) }
    {
        if renewal.value.parts.has_object() {
            let held = &mut self.objects[renewal.object().index()];
            held.last_read = held.version;
        }
    }

    // The answer: the version held and what waits, as far as they were asked for. A lease that is
    // not granted has the length 0.
    pub(crate) fn renewed(&self, request: &RenewalRequest, granted: Option<LeaseLength>) -> Renewed
        requires { let r = request.now in
            granted ≡ (if grants r.renewal.value.parts r.output.number (input_of self.now)
            then Some r.lease else None) }
        ensures { let r = request.now in
            result ≡ renewed r.lease.micros r.output.number r.renewal.value (input_of self.now) }
    {
        let renewal = request.renewal.value;
        let given = self.given(&request.renewal);
        Renewed {
            renewal,
            version: given.version,
            value: given.value,
            epoch: self.ledgers[request.output.index()].epoch,
            length: granted.map_or(0, |lease| lease.micros()),
            list: self.waiting_list(request.output, renewal.parts),
        }
    }

    // Version and value of the object, or 0 and 0 if it was not asked for.
    fn given(&self, renewal: &InRange<Renewal>) -> Newest
        ensures { result ≡ given_of renewal.now.value (input_of self.now) }
    {
        if !renewal.value.parts.has_object() {
            return Newest {
                version: Version::NONE,
                value: 0,
            };
        }
        let held = self.objects[renewal.object().index()];
        Newest {
            version: held.version,
            value: held.value,
        }
    }
}
