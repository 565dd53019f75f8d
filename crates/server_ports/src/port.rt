// A listener that counts its faults.
ghost use Rattle.std.specs.Prelude.{◌≡◌, ◌<◌, ◌+◌, IfOk};
ghost use Rattle.actor_ports.specs.Port.{HasCause};

use actor_ports::{Listen, PortError};
use std::marker::Model;

/// A listener that a host gave out. It counts its faults itself, so that the host can tell when it is given back.
#[derive(Drop)]
pub struct HostPort<L: Listen + Drop + Send> {
    pub(crate) port: L,
    pub(crate) faults: u64,
}

impl<L: Listen + Drop + Send> Model for HostPort<L> {
    ghost use Rattle.actor_ports.specs.Real.{Counted};

    ghost Value = { Counted L };

    ghost view = { λ p. record { inner = p.port; faults = p.faults } };
}

impl<L: Listen + Drop + Send> HostPort<L> {
    /// Lends the listener inside.
    pub fn inner(&self) -> &L
        ensures { result.now ≡ self.now.inner }
    {
        &self.port
    }
}

impl<L: Listen + Drop + Send> Listen for HostPort<L> {
    type Link = L::Link;

    ghost listen_faults = { λ p. p.faults };

    /// The next connection of the listener inside. After 2^64 - 1 faults no further one can be counted: then it accepts
    /// nothing and answers `OutOfMemory`.
    fn accept(&mut self) -> Result<L::Link, PortError> {
        if self.faults == u64::MAX {
            return Err(PortError::OutOfMemory);
        }
        match self.port.accept() {
            Ok(link) => Ok(link),
            Err(PortError::OutOfMemory) => Err(PortError::OutOfMemory),
            Err(PortError::Failed) => {
                self.faults += 1;
                Err(PortError::Failed)
            }
        }
    }

    fn close(&mut self) {
        self.port.close();
    }
}
