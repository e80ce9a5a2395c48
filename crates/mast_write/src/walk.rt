// A write goes from state to state by its answers. Each state is a type of its own: an answer uses
// the state up and gives the next one, and a refusal gives it back as it was.
use crate::stop::Stop;
use operation::{AskingProgress, AskingWrite, End, Progress, SendingWrite};
use quorum::{QuorumSystem, Refusal, Systems};
use rules::Message;
use std::ops::ControlFlow;

// The write asks on until it has its version.
pub(crate) fn ask<I: QuorumSystem, O: QuorumSystem>(
    rt: &impl Print,
    begun: AskingWrite,
    answers: &[Message],
    systems: &Systems<I, O>,
) -> Result<SendingWrite, Stop> {
    walk(rt, begun, answers, "asks", |write, answer| {
        Ok(match write.answer(answer, systems)? {
            AskingProgress::Asking(write) => ControlFlow::Continue(write),
            AskingProgress::Sending(write) => ControlFlow::Break(write),
        })
    })
}

// The write sends on until it has ended.
// `ask` and `send` share `walk`, and differ in the step that they take apart.
pub(crate) fn send<I: QuorumSystem, O: QuorumSystem>(
    rt: &impl Print,
    begun: SendingWrite,
    answers: &[Message],
    systems: &Systems<I, O>,
) -> Result<End, Stop> {
    walk(rt, begun, answers, "sends", |write, answer| {
        Ok(match write.answer(answer, systems)? {
            Progress::On(write) => ControlFlow::Continue(write),
            Progress::Ended(end) => ControlFlow::Break(end),
        })
    })
}

// A state goes on by its answers until one of them makes something else of it.
fn walk<S: Drop, T, F>(
    rt: &impl Print,
    begun: S,
    answers: &[Message],
    doing: &str,
    hand: F,
) -> Result<T, Stop>
where
    F: Fn(S, &Message) -> Result<ControlFlow<T, S>, (Refusal, S)>,
    requires { F.IsAlwaysCallable hand }
{
    let mut state = begun;
    for answer in answers {
        state = match hand(state, answer) {
            Ok(ControlFlow::Break(next)) => return Ok(next),
            Ok(ControlFlow::Continue(state)) => {
                println!(rt; "  an answer, and it {doing} on")?;
                state
            }
            Err((refusal, state)) => {
                let number = refusal.number();
                println!(rt; "  an answer is refused, {number}, and it {doing} on")?;
                state
            }
        };
    }
    Err(Stop::Unanswered)
}
