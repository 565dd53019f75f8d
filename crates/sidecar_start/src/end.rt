// Why a sidecar didn't start.
ghost use Rattle.std.specs.Prelude.{◌≡◌};
ghost use Rattle.sidecar_start.specs.Ends.{end_status};

use app_texts::ConfigError;
use thiserror::Error;

/// Why a sidecar didn't start.
#[derive(Debug, Drop, Error)]
pub enum StartEnd {
    /// A dial failed; the dialler's count of faults has risen.
    #[error("a dial failed")]
    DialFault,
    /// The store refused the Boot; `code` is the code of the refusal in its frame, from 1 to 13.
    #[error("the store refused the boot")]
    StoreRefused { code: u8 },
    /// The application answered the question for its configuration with this status, which isn't 200.
    #[error("the application answered with another status")]
    AppStatus { status: u16 },
    /// What the application answered is no HTTP reply.
    #[error("the application's answer has no reading")]
    AppUnreadable,
    /// The body of the application's reply is no configuration. The error isn't `OutOfMemory`.
    #[error("the application's configuration can't be taken")]
    AppConfig { error: ConfigError },
    /// There was no memory.
    #[error("out of memory")]
    OutOfMemory,
}

impl StartEnd {
    /// The status with which the program ends: 7 for a failed dial, 8 for want of memory, 12 for the application, 13 for
    /// the store.
    pub fn status(&self) -> u8
        ensures { result ≡ end_status self.now }
    {
        match self {
            StartEnd::DialFault => 7,
            StartEnd::StoreRefused { .. } => 13,
            StartEnd::AppStatus { .. } => 12,
            StartEnd::AppUnreadable => 12,
            StartEnd::AppConfig { .. } => 12,
            StartEnd::OutOfMemory => 8,
        }
    }
}
