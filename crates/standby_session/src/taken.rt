// What came of a frame of a session.
ghost use Rattle.std.specs.Prelude.{◌≡◌, ◌<◌};
ghost use Rattle.standby_session.specs.Taking.{taken_end};

use actor_ports::{PortError, SessionEnd};
use frame_session::cut_end;

/// What came of a frame.
#[derive(Clone, Copy, Drop)]
pub(crate) enum Taken {
    /// The call was made, and its answer was written whole.
    Done,
    /// The call was made, and its answer wasn't written whole; or there was no memory to make it.
    Cut { error: PortError },
    /// The call failed; `told` says that the answer was written whole.
    Fault { told: bool },
    /// It is past the end of the disk, or no call.
    Foreign,
}

/// How a session ends behind it, if it does, when so many calls were answered before.
pub(crate) fn taken_end(taken: Taken, requests: u64) -> Option<SessionEnd>
    requires { requests < 18446744073709551615 }
    ensures { result ≡ taken_end taken requests }
{
    match taken {
        Taken::Done => None,
        Taken::Cut { error } => Some(cut_end(error, requests)),
        Taken::Fault { told: true } => Some(SessionEnd::Broken {
            requests: requests + 1,
        }),
        Taken::Fault { told: false } => Some(SessionEnd::Broken { requests }),
        Taken::Foreign => Some(SessionEnd::Malformed { requests }),
    }
}
