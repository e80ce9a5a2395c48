// Advancing the clocks.
ghost use Rattle.std.specs.Prelude.{◌≡◌, ◌+◌, ◌&&◌, OnErr, [], length};
ghost use Rattle.rules.specs.Answers.{acceptance, refusal_said};
ghost use Rattle.rules.specs.Calls.{advancing, advancing_refusal, inputs_stay, outputs_stay, keeps_with, keeps_drift};
ghost use Rattle.rules.specs.State.{outcome};
ghost use Rattle.field.specs.Views.{frame_of, state_of};

use crate::open_field::OpenField;
use crate::servers::{all_stay, tick_all};
use numbers::Drift;
use operation::Operation;
use quorum::{QuorumSystem, Refusal, Systems};
use rules::Message;

impl OpenField {
    // Every clock moves by its increment, the input servers first.
    pub(crate) fn advance<I: QuorumSystem, O: QuorumSystem>(
        &mut self,
        log: &[Message],
        table: &[Operation],
        systems: &Systems<I, O>,
        increments: &[u64],
    ) -> Result<(), Refusal>
        ensures does { let before = state_of self.old log.now table.now in
            let i = I.meaning systems.now.inputs in
            let o = O.meaning systems.now.outputs in
            advancing i o increments.now before
            ≡ outcome (acceptance result) (state_of self.new log.now table.now) }
        ensures same { OnErr result (self.new ≡ self.old) }
    {
        self.check_advance(log, table, systems, increments)?;
        let (of_inputs, of_outputs) = increments.split_at(self.counts.inputs.index());
        tick_all(&mut self.inputs, of_inputs);
        tick_all(&mut self.outputs, of_outputs);
        Ok(())
    }

    // The first refusal that an advance meets.
    fn check_advance<I: QuorumSystem, O: QuorumSystem>(
        &self,
        log: &[Message],
        table: &[Operation],
        systems: &Systems<I, O>,
        increments: &[u64],
    ) -> Result<(), Refusal>
        ensures { let s = state_of self.now log.now table.now in
            let i = I.meaning systems.now.inputs in
            let o = O.meaning systems.now.outputs in
            refusal_said result ≡ advancing_refusal i o increments.now s }
    {
        if !self.is_as_opened(log, table, systems) {
            return Err(Refusal::NotAsOpened);
        }
        if increments.len() != self.counts.inputs.index() + self.counts.outputs.index() {
            return Err(Refusal::IncrementCount);
        }
        if !self.clocks_stay(increments) {
            return Err(Refusal::PastLastTime);
        }
        if !keeps_drift(self.drift, increments) {
            return Err(Refusal::DriftBroken);
        }
        Ok(())
    }

    // Whether every clock can still be shown once it has moved by its increment.
    fn clocks_stay(&self, increments: &[u64]) -> bool
        requires { let counts = (frame_of self.now).counts in
            length increments.now ≡ counts.n + counts.m }
        ensures { let s = state_of self.now [] [] in
            result
            ≡ (inputs_stay increments.now s.frame.counts.n s
            && outputs_stay increments.now s.frame.counts.m s) }
    {
        let (of_inputs, of_outputs) = increments.split_at(self.counts.inputs.index());
        all_stay(&self.inputs, of_inputs) && all_stay(&self.outputs, of_outputs)
    }
}

// Whether `x` keeps up with each of the increments.
fn keeps_with(drift: Drift, x: u64, increments: &[u64]) -> bool
    ensures { result ≡ keeps_with drift.thousandths x increments.now }
{
    increments.iter().all(|y| drift.keeps(x, *y))
}

// Whether each of the increments keeps up with each.
fn keeps_drift(drift: Drift, increments: &[u64]) -> bool
    ensures { result ≡ keeps_drift drift.thousandths increments.now }
{
    increments.iter().all(|x| keeps_with(drift, *x, increments))
}
