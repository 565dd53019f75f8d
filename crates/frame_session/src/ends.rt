// How a session ends.
ghost use Rattle.std.specs.Prelude.{◌≡◌, ◌≢◌, ◌↔◌, [], true, false, None, Some, Err, IfOk, IsTrue};
ghost use Rattle.frame_session.specs.Sessions.{InputEnd, IsBeginning, cut_end, cut_answer_end};

use actor_ports::{PortError, SessionEnd};
use frame_wire::{Frame, FrameError, FrameReader, frame_law};
use lists_and_limits::OutOfMemory;

// The bytes of a frame that is Idle.
const IDLE: [u8; 5] = [0, 0, 0, 1, 19];

// Whether a piece wasn't taken, for want of memory.
fn is_lost(fed: &Result<(), FrameError>) -> bool
    ensures lost { result ≡ true → fed.now ≡ Err FrameError.OutOfMemory }
    ensures kept { result ≡ false → fed.now ≢ Err FrameError.OutOfMemory }
{
    matches!(fed, Err(FrameError::OutOfMemory))
}

// Whether this is a frame that is Idle.
fn is_idle(next: &Option<Frame>) -> bool
    ensures idle { result ≡ true → next.now ≡ Some Frame.Idle }
    ensures other { result ≡ false → next.now ≢ Some Frame.Idle }
{
    matches!(next, Some(Frame::Idle))
}

// Whether the input ended behind a whole frame. A reader doesn't say what it keeps. So it is given one more frame, which
// is the next one only behind a whole frame.
fn is_between(mut reader: FrameReader) -> Result<bool, OutOfMemory>
    requires waits { (reader.ready ≡ []) × (reader.failed ≡ None) }
    requires rest { IsBeginning reader.rest }
    ensures { IfOk result (λ between. IsTrue between ↔ (reader.rest ≡ [])) }
{
    frame_law();
    let fed = reader.feed(&IDLE);
    if is_lost(&fed) {
        return Err(OutOfMemory);
    }
    let next = reader.next();
    Ok(is_idle(&next))
}

/// The end of a session whose input has ended with what the reader keeps.
pub fn end_of_input(reader: FrameReader, requests: u64) -> SessionEnd
    requires waits { (reader.ready ≡ []) × (reader.failed ≡ None) }
    requires rest { IsBeginning reader.rest }
    ensures { InputEnd reader.rest requests result }
{
    match is_between(reader) {
        Err(_) => SessionEnd::OutOfMemory { requests },
        Ok(true) => SessionEnd::Done { requests },
        Ok(false) => SessionEnd::Malformed { requests },
    }
}

/// The end of a session whose connection or memory failed.
pub fn cut_end(error: PortError, requests: u64) -> SessionEnd
    ensures { result ≡ cut_end error requests }
{
    match error {
        PortError::Failed => SessionEnd::ConnFault { requests },
        PortError::OutOfMemory => SessionEnd::OutOfMemory { requests },
    }
}

/// The end of a session in which an answer wasn't written whole. `broken` says that the reply breaks it off in any case.
pub(crate) fn cut_answer_end(error: PortError, broken: bool, requests: u64) -> SessionEnd
    ensures { result ≡ cut_answer_end error broken requests }
{
    if broken {
        SessionEnd::Broken { requests }
    } else {
        cut_end(error, requests)
    }
}
