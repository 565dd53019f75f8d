// A disk that counts its faults.
ghost use Rattle.std.specs.Prelude.{◌≡◌, ◌<◌, ◌+◌, IfOk, IfErr, Ok};
ghost use Rattle.actor_ports.specs.Port.{HasCause, Appends, faults_after};
ghost use Rattle.disk_model.specs.Disk.{DiskState, Writes, Cuts, Syncs, Reads, Tells, IsSpent};

use actor_ports::PortError;
use disk_model::Disk;
use std::marker::Model;

/// A disk that a host gave out. It counts its faults itself, so that the host can tell when it is given back.
#[derive(Drop)]
pub struct HostDisk<D: Disk + Drop> {
    pub(crate) disk: D,
    pub(crate) faults: u64,
}

impl<D: Disk + Drop> Model for HostDisk<D> {
    ghost use Rattle.actor_ports.specs.Real.{Counted};

    ghost Value = { Counted D };

    ghost view = { λ d. record { inner = d.disk; faults = d.faults } };
}

impl<D: Disk + Drop> HostDisk<D> {
    /// Lends the disk inside.
    pub fn inner(&self) -> &D
        ensures { result.now ≡ self.now.inner }
    {
        &self.disk
    }

    // The error of a call that failed, with one fault more.
    fn fail(&mut self) -> PortError
        requires { self.old.faults < 18446744073709551615 }
        ensures same { self.new ≡ record self.old { faults = self.old.faults + 1 } }
        ensures failed { result ≡ PortError.Failed }
    {
        self.faults += 1;
        PortError::Failed
    }
}

impl<D: Disk + Drop> Disk for HostDisk<D> {
    ghost told = { λ d. D.told d.inner };

    ghost disk_faults = { λ d. d.faults };

    /// The same of the disk inside. After 2^64 - 1 faults no further one can be counted: then it asks for nothing and
    /// answers `OutOfMemory`. So do the other calls.
    fn len(&mut self) -> Result<u64, PortError> {
        if self.faults == u64::MAX {
            return Err(PortError::OutOfMemory);
        }
        match self.disk.len() {
            Ok(len) => Ok(len),
            Err(PortError::OutOfMemory) => Err(PortError::OutOfMemory),
            Err(PortError::Failed) => Err(self.fail()),
        }
    }

    fn read(&mut self, at: u64, most: usize, into: &mut Vec<u8>) -> Result<usize, PortError> {
        if self.faults == u64::MAX {
            return Err(PortError::OutOfMemory);
        }
        match self.disk.read(at, most, into) {
            Ok(count) => Ok(count),
            Err(PortError::OutOfMemory) => Err(PortError::OutOfMemory),
            Err(PortError::Failed) => Err(self.fail()),
        }
    }

    fn write_at(&mut self, at: u64, bytes: &[u8]) -> Result<(), PortError> {
        if self.faults == u64::MAX {
            return Err(PortError::OutOfMemory);
        }
        match self.disk.write_at(at, bytes) {
            Ok(()) => Ok(()),
            Err(_) => Err(self.fail()),
        }
    }

    fn cut(&mut self, len: u64) -> Result<(), PortError> {
        if self.faults == u64::MAX {
            return Err(PortError::OutOfMemory);
        }
        match self.disk.cut(len) {
            Ok(()) => Ok(()),
            Err(_) => Err(self.fail()),
        }
    }

    fn sync(&mut self) -> Result<(), PortError> {
        if self.faults == u64::MAX {
            return Err(PortError::OutOfMemory);
        }
        match self.disk.sync() {
            Ok(()) => Ok(()),
            Err(_) => Err(self.fail()),
        }
    }
}
