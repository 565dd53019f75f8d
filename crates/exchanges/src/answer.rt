// What an exchange of frames comes to.
ghost use Rattle.std.specs.Prelude.{◌≡◌, Ok};
ghost use Rattle.exchanges.specs.Asked.{answers, answer_in};

use crate::frame_end::FrameEnd;
use crate::store_end::StoreEnd;
use frame_wire::{Frame, StoreAnswer, is_reading_of, is_reading_of_tx};

// Whether the answer fits the command that was sent.
fn answers(asked: &Frame, answer: &StoreAnswer) -> bool
    ensures { result ≡ answers asked.now answer.now }
{
    match asked {
        Frame::Command { command } => is_reading_of(command, answer),
        Frame::FencedTx { .. } => is_reading_of_tx(answer),
        _ => false,
    }
}

// What an answer comes to.
fn fitting(asked: &Frame, answer: StoreAnswer) -> Result<StoreAnswer, StoreEnd>
    ensures { result ≡ answer_in asked.now (Ok (Frame.Answer answer)) }
{
    if answers(asked, &answer) {
        Ok(answer)
    } else {
        Err(StoreEnd::Unreadable)
    }
}

/// The answer in the frame that was read, or why none was.
pub(crate) fn answer_in(
    asked: &Frame,
    got: Result<Frame, FrameEnd>,
) -> Result<StoreAnswer, StoreEnd>
    ensures { result ≡ answer_in asked.now got }
{
    match got {
        Ok(Frame::Answer { answer }) => fitting(asked, answer),
        Ok(_) => Err(StoreEnd::Unreadable),
        Err(FrameEnd::NoFrame { .. }) => Err(StoreEnd::Unreadable),
        Err(FrameEnd::ConnFault) => Err(StoreEnd::Fault),
        Err(FrameEnd::OutOfMemory) => Err(StoreEnd::OutOfMemory),
    }
}
