// A disk whose calls are also made at the other end of a link.
ghost use Rattle.std.specs.Prelude.{◌≡◌, ◌≤◌, ◌+◌, Some, length, IsErrOf, IfOk, IfErr};
ghost use Rattle.actor_ports.specs.Port.{HasCause, Appends};
ghost use Rattle.disk_model.specs.Disk.{DiskState, Writes, Cuts, Syncs, Reads, Tells, IsSpent};
ghost use Rattle.frame_wire.specs.declared.mirror.MirrorCommand.TheVariants as commands;
ghost use Rattle.standby_core.specs.Mirrors.{IsOnly, IsWrite, BeginsWrite, IsUntold, Copies};
ghost use Rattle.standby_core.specs.Attaching.{Attaches, AttachCause};
ghost use Rattle.standby_core.specs.Telling.{HasLost};

use crate::attach::copy_disk;
use crate::replica::{Replica, text_room};
use crate::wire::Wire;
use actor_ports::PortError;
use disk_model::Disk;
use std::alloc::Global;
use std::marker::Model;

/// A disk with a standby: each write, cut and sync is first done on the disk and, if that succeeded, at the other end of
/// the link too, and its answer awaited. Reads and the length are the disk's.
///
/// Its count of faults is the disk's, the link's and the number of answers that couldn't be read or told a fault. A
/// call that isn't answered as done answers `Failed`, though the disk has done it. After such a call the two disks may
/// differ for good. After 2^64 - 1 answers of that kind no further one can be counted: then a write, a cut or a sync asks
/// for nothing and answers `OutOfMemory`.
#[derive(Drop)]
pub struct Mirror<D: Disk + Drop, L: Wire> {
    disk: D,
    replica: Replica<L>,
}

impl<D: Disk + Drop, L: Wire> Model for Mirror<D, L> {
    ghost use Rattle.standby_core.specs.Mirrors.{MirrorState};
    ghost use Rattle.standby_core.specs.Telling.{HasLost};

    ghost Value = { MirrorState D L };

    ghost view = { λ m. record { disk = m.disk; link = m.replica.link; unheard = m.replica.unheard } };

    ghost invariant = { λ m. HasLost L.read_traffic m.replica.unheard };
}

impl<D: Disk + Drop, L: Wire> Mirror<D, L> {
    /// Gives a standby the bytes of the disk, so that its disk reads the same, and mirrors the disk from then on. Until the
    /// first byte of the disk is sent, which comes last, the standby has no made file. After an error nothing of the
    /// standby's file may be relied on, and the disk and the link are handed back; the disk is as it was. `Failed` says that
    /// the disk failed, or the link, or that an answer couldn't be read or told a fault.
    pub fn attach(alloc: Global, disk: D, link: L) -> Result<Mirror<D, L>, (PortError, D, L)>
        ensures attaches { IfOk result (λ m. Attaches (D.told disk) (L.read_traffic link) (L.read_traffic m.link)) }
        ensures same { IfOk result (λ m. (D.told m.disk ≡ D.told disk) × (m.unheard ≡ 0)) }
        ensures handed_back { IfErr result (λ e. D.told e.1 ≡ D.told disk) }
        ensures cause { IfErr result (λ e. AttachCause (D.disk_faults disk) (D.disk_faults e.1) (L.read_faults link) (L.read_faults e.2) (L.read_traffic link) (L.read_traffic e.2) e.0) }
    {
        let mut disk = disk;
        let Ok(text) = text_room(alloc) else {
            return Err((PortError::OutOfMemory, disk, link));
        };
        let mut replica = Replica {
            link,
            text,
            heard: Vec::new(alloc),
            unheard: 0,
        };
        match copy_disk(alloc, &mut disk, &mut replica) {
            Ok(()) => Ok(Mirror { disk, replica }),
            Err(error) => {
                let Replica { link, .. } = replica;
                Err((error, disk, link))
            }
        }
    }

    /// Hands back the disk and the link, as they are. It takes no memory.
    pub fn detach(self) -> (D, L)
        ensures disk { result.0 ≡ self.disk }
        ensures link { result.1 ≡ self.link }
        ensures lost { HasLost L.read_traffic self.unheard }
    {
        let Mirror { disk, replica } = self;
        let Replica { link, .. } = replica;
        (disk, link)
    }

    /// Lends the disk.
    pub fn disk(&self) -> &D
        ensures { result.now ≡ self.now.disk }
    {
        &self.disk
    }
}

impl<D: Disk + Drop, L: Wire> Disk for Mirror<D, L> {
    ghost told = { λ m. D.told m.disk };

    ghost disk_faults = { λ m. D.disk_faults m.disk + (L.read_faults m.link + m.unheard) };

    fn len(&mut self) -> Result<u64, PortError>
        ensures length { IfOk result (λ n. (d : DiskState) → D.told self.old.disk ≡ Some d → n ≡ length d.bytes) }
        ensures same { D.told self.new.disk ≡ D.told self.old.disk }
        ensures cause { HasCause (D.disk_faults self.old.disk + (L.read_faults self.old.link + self.old.unheard)) (D.disk_faults self.new.disk + (L.read_faults self.new.link + self.new.unheard)) result }

        ensures untold { IsUntold (L.read_traffic self.old.link) (L.read_traffic self.new.link) self.old.unheard self.new.unheard }
    {
        self.disk.len()
    }

    fn read(&mut self, at: u64, most: usize, into: &mut Vec<u8>) -> Result<usize, PortError>
        ensures read { (d : DiskState) → D.told self.old.disk ≡ Some d → Reads at most into.old.items into.new.items result d }
        ensures most { IfOk result (λ n. n ≤ most) }
        ensures appends { Appends into.old.items into.new.items result }
        ensures same { D.told self.new.disk ≡ D.told self.old.disk }
        ensures cause { HasCause (D.disk_faults self.old.disk + (L.read_faults self.old.link + self.old.unheard)) (D.disk_faults self.new.disk + (L.read_faults self.new.link + self.new.unheard)) result }

        ensures untold { IsUntold (L.read_traffic self.old.link) (L.read_traffic self.new.link) self.old.unheard self.new.unheard }
    {
        self.disk.read(at, most, into)
    }

    /// The bytes are sent in pieces of at most 1,048,576.
    #[tactic(auto, using(crate::proofs::Mirrored::write_copied, crate::proofs::Mirrored::not_copied, crate::proofs::Mirrored::asks_memory, crate::proofs::Mirrored::sum_cause_disk, crate::proofs::Mirrored::sum_cause_told, crate::proofs::Mirrored::spent_unheard, crate::proofs::Mirrored::spent_disk, crate::proofs::Mirrored::spent_write))]
    fn write_at(&mut self, at: u64, bytes: &[u8]) -> Result<(), PortError>
        requires { (d : DiskState) → D.told self.old.disk ≡ Some d → at ≤ length d.bytes }
        ensures written { Tells (Writes at bytes.now result) (D.told self.old.disk) (D.told self.new.disk) }
        ensures memory { IsErrOf result PortError.OutOfMemory → IsSpent (D.disk_faults self.old.disk + (L.read_faults self.old.link + self.old.unheard)) }
        ensures cause { HasCause (D.disk_faults self.old.disk + (L.read_faults self.old.link + self.old.unheard)) (D.disk_faults self.new.disk + (L.read_faults self.new.link + self.new.unheard)) result }

        ensures copies { Copies (λ r. Tells (Writes at bytes.now r) (D.told self.old.disk) (D.told self.new.disk)) (IsWrite at bytes.now) (BeginsWrite at bytes.now) (L.read_traffic self.old.link) (L.read_traffic self.new.link) self.old.unheard self.new.unheard result }
    {
        if self.replica.unheard == u64::MAX {
            return Err(PortError::OutOfMemory);
        }
        match self.disk.write_at(at, bytes) {
            Err(error) => Err(error),
            Ok(()) => self.replica.tell_write(at, bytes),
        }
    }

    #[tactic(auto, using(crate::proofs::Mirrored::not_copied, crate::proofs::Mirrored::cut_one_told, crate::proofs::Mirrored::one_memory, crate::proofs::Mirrored::sum_cause_disk, crate::proofs::Mirrored::sum_cause_told, crate::proofs::Mirrored::spent_unheard, crate::proofs::Mirrored::spent_disk, crate::proofs::Mirrored::spent_cut))]
    fn cut(&mut self, len: u64) -> Result<(), PortError>
        requires { (d : DiskState) → D.told self.old.disk ≡ Some d → len ≤ length d.bytes }
        ensures cut { Tells (Cuts len result) (D.told self.old.disk) (D.told self.new.disk) }
        ensures memory { IsErrOf result PortError.OutOfMemory → IsSpent (D.disk_faults self.old.disk + (L.read_faults self.old.link + self.old.unheard)) }
        ensures cause { HasCause (D.disk_faults self.old.disk + (L.read_faults self.old.link + self.old.unheard)) (D.disk_faults self.new.disk + (L.read_faults self.new.link + self.new.unheard)) result }

        ensures copies { Copies (λ r. Tells (Cuts len r) (D.told self.old.disk) (D.told self.new.disk)) (IsOnly (commands.Cut len)) (IsOnly (commands.Cut len)) (L.read_traffic self.old.link) (L.read_traffic self.new.link) self.old.unheard self.new.unheard result }
    {
        if self.replica.unheard == u64::MAX {
            return Err(PortError::OutOfMemory);
        }
        match self.disk.cut(len) {
            Err(error) => Err(error),
            Ok(()) => self.replica.tell_cut(len),
        }
    }

    #[tactic(auto, using(crate::proofs::Mirrored::not_copied, crate::proofs::Mirrored::sync_one_told, crate::proofs::Mirrored::one_memory, crate::proofs::Mirrored::sum_cause_disk, crate::proofs::Mirrored::sum_cause_told, crate::proofs::Mirrored::spent_unheard, crate::proofs::Mirrored::spent_disk, crate::proofs::Mirrored::spent_sync))]
    fn sync(&mut self) -> Result<(), PortError>
        ensures synced { Tells (Syncs result) (D.told self.old.disk) (D.told self.new.disk) }
        ensures memory { IsErrOf result PortError.OutOfMemory → IsSpent (D.disk_faults self.old.disk + (L.read_faults self.old.link + self.old.unheard)) }
        ensures cause { HasCause (D.disk_faults self.old.disk + (L.read_faults self.old.link + self.old.unheard)) (D.disk_faults self.new.disk + (L.read_faults self.new.link + self.new.unheard)) result }

        ensures copies { Copies (λ r. Tells (Syncs r) (D.told self.old.disk) (D.told self.new.disk)) (IsOnly commands.Sync) (IsOnly commands.Sync) (L.read_traffic self.old.link) (L.read_traffic self.new.link) self.old.unheard self.new.unheard result }
    {
        if self.replica.unheard == u64::MAX {
            return Err(PortError::OutOfMemory);
        }
        match self.disk.sync() {
            Err(error) => Err(error),
            Ok(()) => self.replica.tell_sync(),
        }
    }
}
