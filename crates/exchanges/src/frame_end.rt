// Why an exchange gave no frame.
ghost use Rattle.std.specs.Prelude.{◌≡◌};
ghost use Rattle.exchanges.specs.FrameExchanges.{end_of};

use actor_ports::PortError;
use lists_and_limits::OutOfMemory;
use thiserror::Error;

/// Why an exchange gave no frame.
#[derive(Clone, Copy, Debug, Error)]
pub enum FrameEnd {
    /// The bytes read aren't a frame: at this place, from 0, there is a fault, or the input ended there, inside a frame.
    #[error("no frame at byte {at}")]
    NoFrame { at: u64 },
    /// The connection failed.
    #[error("the connection failed")]
    ConnFault,
    /// There was no memory.
    #[error("out of memory")]
    OutOfMemory,
}

impl From<OutOfMemory> for FrameEnd {
    ghost use Rattle.exchanges.specs.declared.frame_end.FrameEnd.TheVariants.{OutOfMemory};
    ghost use Rattle.std.specs.Prelude.{◌≡◌};

    ghost from_gives = { λ _ e. e ≡ OutOfMemory };

    fn from(_: OutOfMemory) -> FrameEnd {
        FrameEnd::OutOfMemory
    }
}

// The answer to an error of the connection.
pub(crate) fn end_of(error: PortError) -> FrameEnd
    ensures { result ≡ end_of error }
{
    match error {
        PortError::Failed => FrameEnd::ConnFault,
        PortError::OutOfMemory => FrameEnd::OutOfMemory,
    }
}
