// How the command ends.
ghost use Rattle.std.specs.Prelude.{◌≡◌, ◌≢◌, IsTrue, Some};
ghost use Rattle.sidecar_command.specs.Commands.{sidecar_status, unstarted_end};
ghost use Rattle.sidecar_start.specs.declared.end.StartEnd.{StartEnd};
ghost use Rattle.sidecar_server.specs.declared.watch.StopCause.{StopCause};

use actor_ports::PortError;
use server_ports::ServerEnd;
use sidecar_server::{SidecarServed, StopCause};
use sidecar_start::StartEnd;

/// How the command ended.
#[derive(Drop)]
pub enum SidecarEnd {
    /// As many connections of callers were served as the words say.
    Done,
    /// A port wasn't bound or failed, or a dial failed at the start.
    PortFault,
    /// The store refused the boot, or the application gave no configuration.
    Unstarted { end: StartEnd },
    /// The placement wasn't heard, or it refused the sidecar.
    Stopped { cause: StopCause },
    /// There was no memory.
    OutOfMemory,
}

impl SidecarEnd {
    /// The status with which the program ends: 0, 7, 8, 11 for a stop, 12 for the application, 13 for the store.
    pub fn status(&self) -> u8
        ensures { result ≡ sidecar_status self.now }
    {
        match self {
            SidecarEnd::Done => 0,
            SidecarEnd::PortFault => 7,
            SidecarEnd::Unstarted { end } => end.status(),
            SidecarEnd::Stopped { .. } => 11,
            SidecarEnd::OutOfMemory => 8,
        }
    }
}

/// How the command ends if it doesn't start.
pub(crate) fn unstarted(end: StartEnd) -> SidecarEnd
    ensures is { result ≡ unstarted_end end }
    ensures port { result ≡ SidecarEnd.PortFault → end ≡ StartEnd.DialFault }
{
    match end {
        StartEnd::DialFault => SidecarEnd::PortFault,
        StartEnd::OutOfMemory => SidecarEnd::OutOfMemory,
        end => SidecarEnd::Unstarted { end },
    }
}

/// How the command ends if a port isn't bound.
pub(crate) fn unbound(error: PortError) -> SidecarEnd
    ensures port { result ≡ SidecarEnd.PortFault → error ≡ PortError.Failed }
    ensures done { result ≢ SidecarEnd.Done }
    ensures own { (e : StartEnd) → result ≢ SidecarEnd.Unstarted e }
    ensures stop { (c : StopCause) → result ≢ SidecarEnd.Stopped c }
{
    match error {
        PortError::Failed => SidecarEnd::PortFault,
        PortError::OutOfMemory => SidecarEnd::OutOfMemory,
    }
}

/// How the command ends once its server has. That the sidecar had to stop counts first.
pub(crate) fn ended(served: SidecarServed, failed: bool) -> SidecarEnd
    ensures port { result ≡ SidecarEnd.PortFault → IsTrue failed }
    ensures own { (e : StartEnd) → result ≢ SidecarEnd.Unstarted e }
    ensures stop { (c : StopCause) → result ≡ SidecarEnd.Stopped c → served.stop ≡ Some c }
{
    let SidecarServed {
        end,
        stop,
        seats: _,
    } = served;
    if let Some(cause) = stop {
        return SidecarEnd::Stopped { cause };
    }
    if failed {
        return SidecarEnd::PortFault;
    }
    match end {
        ServerEnd::OutOfMemory => SidecarEnd::OutOfMemory,
        _ => SidecarEnd::Done,
    }
}
