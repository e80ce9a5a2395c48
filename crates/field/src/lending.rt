// What every call but opening is lent.
ghost use Rattle.std.specs.Prelude.{◌≡◌};
ghost use Rattle.rules.specs.Calls.{as_opened};
ghost use Rattle.field.specs.Views.{state_of};

use crate::open_field::OpenField;
use operation::Operation;
use quorum::{QuorumSystem, Systems};
use rules::Message;

impl OpenField {
    // Whether log, table and systems are those of the opening, by their lengths and counts.
    pub(crate) fn is_as_opened<I: QuorumSystem, O: QuorumSystem>(
        &self,
        log: &[Message],
        table: &[Operation],
        systems: &Systems<I, O>,
    ) -> bool
        ensures { result
            ≡ as_opened (I.meaning systems.now.inputs) (O.meaning systems.now.outputs)
            (state_of self.now log.now table.now) }
    {
        log.len() == self.log_len
            && table.len() == self.table_len
            && systems.inputs.count() == self.counts.inputs.get()
            && systems.outputs.count() == self.counts.outputs.get()
    }
}
