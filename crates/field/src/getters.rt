// What can be seen of a field from outside. Nothing is changed by looking, and a field that is
// not yet open has no servers, no objects, no messages and no operations. Each look is of another
// number, and its contract says which: one that is asked for a kind of number would promise less
// plainly.
ghost use Rattle.std.specs.Prelude.{◌≡◌, []};
ghost use Rattle.field.specs.Getters.{of_open, input_clock, output_clock};
ghost use Rattle.field.specs.Fields.{lent_to};

use crate::field::Field;
use crate::servers::clock_at;
use numbers::Time;

impl Field {
    /// Whether the field was opened.
    pub fn is_open(&self) -> bool
        ensures { result ≡ (lent_to self.now [] []).frame.is_open }
    {
        self.inside.is_some()
    }

    /// How many input servers there are, 1 to 8; 0 before the opening.
    pub fn input_servers(&self) -> u8
        ensures { let s = lent_to self.now [] [] in result ≡ of_open s s.frame.counts.n }
    {
        self.inside
            .as_ref()
            .map_or(0, |inside| inside.counts.inputs.get())
    }

    /// How many output servers there are, 1 to 8; 0 before the opening.
    pub fn output_servers(&self) -> u8
        ensures { let s = lent_to self.now [] [] in result ≡ of_open s s.frame.counts.m }
    {
        self.inside
            .as_ref()
            .map_or(0, |inside| inside.counts.outputs.get())
    }

    /// How many objects there are, 1 to 16; 0 before the opening.
    pub fn objects(&self) -> u8
        ensures { let s = lent_to self.now [] [] in result ≡ of_open s s.frame.counts.k }
    {
        self.inside
            .as_ref()
            .map_or(0, |inside| inside.counts.objects.get())
    }

    /// How many messages were made: the highest number that can be delivered; 0 before the opening.
    pub fn messages_made(&self) -> u64
        ensures { let s = lent_to self.now [] [] in result ≡ of_open s s.made }
    {
        self.inside.as_ref().map_or(0, |inside| inside.made as u64)
    }

    /// How many operations were begun: the number of the last one; 0 before the opening.
    pub fn operations_begun(&self) -> u16
        ensures { let s = lent_to self.now [] [] in result ≡ of_open s s.begun }
    {
        self.inside.as_ref().map_or(0, |inside| inside.begun)
    }

    /// The clock of the input server with that number, counted from 0, if there is one.
    pub fn input_clock(&self, number: u8) -> Option<Time>
        ensures { result ≡ input_clock (lent_to self.now [] []) number }
    {
        let inside = self.inside.as_ref()?;
        clock_at(&inside.inputs, inside.counts.inputs, number)
    }

    /// The clock of the output server with that number, counted from 0, if there is one.
    pub fn output_clock(&self, number: u8) -> Option<Time>
        ensures { result ≡ output_clock (lent_to self.now [] []) number }
    {
        let inside = self.inside.as_ref()?;
        clock_at(&inside.outputs, inside.counts.outputs, number)
    }
}
