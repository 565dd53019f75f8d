// How a sidecar ends, and what it prints.
ghost use Rattle.std.specs.Prelude.{◌≡◌, ◌<◌};
ghost use Rattle.sidecar_command.specs.declared.ends.SidecarEnd.{SidecarEnd};
ghost use Rattle.actors_top.specs.Sidecar.{status_of, TellsEnd};

use actor_ports::{PortError, Sink};
use sidecar_command::{SidecarEnd, push_end};
use sidecar_start::StartEnd;
use std::alloc::Global;

/// How a sidecar ends, by the status that the program gives to its caller.
#[derive(Clone, Copy)]
pub enum SidecarStatus {
    /// As many connections were served as the words say.
    Done = 0,
    /// The sink failed while the line of the end was written.
    SinkFault = 5,
    /// A port wasn't bound or failed, or a dial failed at the start.
    PortFault = 7,
    /// Out of memory.
    OutOfMemory = 8,
    /// The placement wasn't heard, or it refused the sidecar; a line was printed.
    Stopped = 11,
    /// The application gave no configuration; a line was printed.
    AppRefused = 12,
    /// The store refused the boot; a line was printed.
    StoreRefused = 13,
}

// The status of an end.
fn status_of(end: &SidecarEnd) -> SidecarStatus
    ensures { result ≡ status_of end.now }
{
    match end {
        SidecarEnd::Done => SidecarStatus::Done,
        SidecarEnd::PortFault => SidecarStatus::PortFault,
        SidecarEnd::OutOfMemory => SidecarStatus::OutOfMemory,
        SidecarEnd::Stopped { .. } => SidecarStatus::Stopped,
        SidecarEnd::Unstarted { end } => match end {
            StartEnd::StoreRefused { .. } => SidecarStatus::StoreRefused,
            _ => SidecarStatus::AppRefused,
        },
    }
}

/// Prints the line of an end, if it has one.
pub(crate) fn tell_sidecar<W: Sink>(
    alloc: Global,
    end: &SidecarEnd,
    output: &mut W,
) -> SidecarStatus
    ensures tells { TellsEnd end.now result (W.contents output.old) (W.contents output.new) }
    ensures sink { result ≡ SidecarStatus.SinkFault → W.write_faults output.old < W.write_faults output.new }
    ensures port { result ≡ SidecarStatus.PortFault → end.now ≡ SidecarEnd.PortFault }
{
    if let SidecarEnd::Done | SidecarEnd::PortFault | SidecarEnd::OutOfMemory = end {
        return status_of(end);
    }
    let mut text = Vec::new(alloc);
    if push_end(&mut text, end).is_err() {
        return SidecarStatus::OutOfMemory;
    }
    match output.write(text.as_slice()) {
        Ok(()) => status_of(end),
        Err(PortError::Failed) => SidecarStatus::SinkFault,
        Err(PortError::OutOfMemory) => SidecarStatus::OutOfMemory,
    }
}
