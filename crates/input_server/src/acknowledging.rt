// What an output server acknowledged.
ghost use Rattle.std.specs.Prelude.{◌≡◌, [], slice_index_or, slice_set};
ghost use Rattle.numbers.specs.Numbers.{none, raised};
ghost use Rattle.rules.specs.Lists.{list_of};
ghost use Rattle.rules.specs.Input.{acknowledges, acknowledges_all};
ghost use Rattle.input_server.specs.Views.{input_of};

use crate::server::InputServer;
use numbers::{OutputNumber, Version};
use rules::{InRange, Pair, Pairs};

impl InputServer {
    /// Takes an invalidation answer of an output server: for each pair of its list, in order, what
    /// the output server acknowledged of the object is raised to that version, and an invalidation
    /// that waits with no higher version is dropped. It logs nothing and never refuses.
    pub fn take_acknowledgement(&mut self, output: OutputNumber, list: &InRange<Pairs>)
        ensures does { input_of self.new
            ≡ acknowledges_all output.number (list_of list.now.value) (input_of self.old) }
        ensures same { list_of list.now.value ≡ [] → self.new ≡ self.old }
    {
        self.acknowledge_all(output, list.value.as_slice());
    }

    #[tactic(auto, unfolding(rules::specs::Input::acknowledges_all))]
    fn acknowledge_all(&mut self, output: OutputNumber, pairs: &[Pair])
        ensures does { input_of self.new
            ≡ acknowledges_all output.number pairs.now (input_of self.old) }
        ensures same { pairs.now ≡ [] → self.new ≡ self.old }
    {
        for pair in pairs {
            self.acknowledge(output, *pair);
        }
    }

    // What was acknowledged is raised, and what waits no longer needs to where this covers it.
    fn acknowledge(&mut self, output: OutputNumber, pair: Pair)
        ensures { input_of self.new ≡ acknowledges output.number pair (input_of self.old) }
    {
        let highest = raise(&mut self.ledgers[output.index()].last_acknowledged, pair);
        self.chains.acknowledge(output, pair.object, highest);
    }
}

// Says what is acknowledged then. For an object that there is no place for, that is the version
// itself, and nothing is raised.
fn raise(versions: &mut [Version], pair: Pair) -> Version
    ensures says { result ≡ raised (slice_index_or versions.old pair.object none) pair.version }
    ensures after { let highest = raised (slice_index_or versions.old pair.object none) pair.version in
        versions.new ≡ slice_set versions.old pair.object highest }
{
    let place = usize::from(pair.object);
    if place >= versions.len() {
        return pair.version;
    }
    versions[place] = versions[place].max(pair.version);
    versions[place]
}
