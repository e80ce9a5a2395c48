// What a caller starts with: a field that is not yet open.
ghost use Rattle.std.specs.Prelude.{◌≡◌, List, map};
ghost use Rattle.operation.specs.declared.table.Operation.{Operation as Place};
ghost use Rattle.operation.specs.States.{operation_of};
ghost use Rattle.rules.specs.declared.message.Message.{Message as AnyMessage};
ghost use Rattle.field.specs.Unopened.{unopened};
ghost use Rattle.field.specs.Fields.{lent_to};

use crate::field::Field;

impl Field {
    /// A field that is not yet open. It has no servers, and refuses 8 at every call but opening.
    pub fn new() -> Field
        ensures { (log : List AnyMessage) (t : List Place) →
            lent_to result log t ≡ unopened log (map operation_of t) }
    {
        Field { inside: None }
    }
}
