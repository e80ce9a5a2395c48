// Opening: its tests, and what it makes.
ghost use Rattle.std.specs.Prelude.{◌≡◌, false, take, drop};
ghost use Rattle.rules.specs.Answers.{refusal_said};
ghost use Rattle.rules.specs.Calls.{clocks_fit, opening_refusal};
ghost use Rattle.field.specs.Opened.{OpeningFits, opened_frame};
ghost use Rattle.field.specs.Servers.{first_inputs, first_outputs};
ghost use Rattle.field.specs.Views.{inputs_of, outputs_of, frame_of};

use crate::open_field::OpenField;
use crate::servers::start;
use numbers::{
    Drift, InputIndex, Kind, LeaseLength, ObjectCount, ObjectIndex, OutputIndex, ServerCount, Time,
};
use quorum::Refusal;
use rules::{Counts, MOST_MESSAGES, MOST_OPERATIONS, STEP_MESSAGES};

impl OpenField {
    // Every server begins in its first state, with its start clock. It is handed what the tests
    // of an opening were, one by one: no third function takes them all. Each of them was found to
    // be in range.
    pub(crate) fn new(
        n: u8,
        m: u8,
        opening: Opening,
        clocks: &[Time],
        log_len: usize,
        table_len: usize,
    ) -> OpenField
        requires { OpeningFits n m opening.objects opening.lease opening.drift clocks.now }
        ensures frame { let x = opening in
            frame_of result ≡ opened_frame n m x.objects x.lease x.drift log_len table_len }
        ensures counters { (result.made ≡ 0) × (result.begun ≡ 0) }
        ensures inputs { inputs_of result.inputs ≡ first_inputs (take n clocks.now) }
        ensures outputs { outputs_of result.outputs ≡ first_outputs (drop n clocks.now) }
    {
        OpenField {
            counts: Counts {
                inputs: ServerCount::try_from(n).unwrap(),
                outputs: ServerCount::try_from(m).unwrap(),
                objects: ObjectCount::try_from(opening.objects as u8).unwrap(),
            },
            lease: LeaseLength::try_from(opening.lease).unwrap(),
            drift: Drift::try_from(opening.drift).unwrap(),
            log_len,
            table_len,
            made: 0,
            begun: 0,
            inputs: start(&clocks[..n as usize]),
            outputs: start(&clocks[n as usize..]),
        }
    }
}

/// What a field is opened with, beside its systems and start clocks. Any numbers may stand here:
/// opening refuses those that are out of their ranges.
#[derive(Clone, Copy)]
pub struct Opening {
    /// How many objects: 1 to 16.
    pub objects: u64,
    /// How long a lease lasts, in microseconds: 1 to 1,000,000,000.
    pub lease: u64,
    /// The most by which two clocks may disagree about how much time has passed, in thousandths:
    /// 0 to 999.
    pub drift: u64,
}

// Whether every start clock can be shown.
fn clocks_fit(clocks: &[Time]) -> bool
    ensures { result ≡ clocks_fit clocks.now }
{
    clocks.iter().all(|clock| clock.is_shown())
}

// The first refusal that an opening of a field meets that is not open. Its numbers are tested
// wide, as the caller gives them: each test has its own refusal, and the type of a lease length
// takes 0, which an opening refuses.
pub(crate) fn check_opening(
    n: u8,
    m: u8,
    opening: Opening,
    clocks: &[Time],
    log_len: usize,
    table_len: usize,
) -> Result<(), Refusal>
    ensures { let x = opening in
        refusal_said result
        ≡ opening_refusal false n m x.objects x.lease x.drift clocks.now log_len table_len }
{
    if n > InputIndex::LIMIT || m > OutputIndex::LIMIT {
        return Err(Refusal::TooManyMembers);
    }
    if opening.objects < 1 || opening.objects > ObjectIndex::LIMIT as u64 {
        return Err(Refusal::ObjectCount);
    }
    if opening.lease < 1 || opening.lease > LeaseLength::LONGEST as u64 {
        return Err(Refusal::LeaseLength);
    }
    if opening.drift > Drift::HIGHEST as u64 {
        return Err(Refusal::DriftRange);
    }
    if clocks.len() != n as usize + m as usize || !clocks_fit(clocks) {
        return Err(Refusal::StartClocks);
    }
    if log_len < STEP_MESSAGES
        || log_len > MOST_MESSAGES
        || table_len < 1
        || table_len > MOST_OPERATIONS as usize
    {
        return Err(Refusal::Lengths);
    }
    Ok(())
}
