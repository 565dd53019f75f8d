// The trait of a disk.
ghost use Rattle.std.specs.Prelude.{◌≡◌, ◌<◌, ◌≤◌, ℕ, List, Option, Some, length, IsErrOf, IfOk};
ghost use Rattle.actor_ports.specs.Port.{HasCause, Appends};
ghost use Rattle.disk_model.specs.Disk.{DiskState, Writes, Cuts, Syncs, Reads, Tells, IsSpent};

use actor_ports::PortError;

/// A file that can be read and written at any place. What isn't synced may be lost in a crash.
///
/// Places and lengths are in bytes from the start of the file. A write that can't grow the file fails;
/// `write_at`, `cut` and `sync` answer `OutOfMemory` only if the count of faults has reached its maximum.
pub trait Disk {
    /// The state, if the disk reports it.
    ghost told: { Self → Option DiskState };

    /// How often the disk has failed so far.
    ghost disk_faults: { Self → ℕ };

    /// The length in bytes.
    fn len(&mut self) -> Result<u64, PortError>
        ensures length { IfOk result (λ n. (d : DiskState) → told self.old ≡ Some d → n ≡ length d.bytes) }
        ensures same { told self.new ≡ told self.old }
        ensures cause { HasCause (disk_faults self.old) (disk_faults self.new) result };

    /// Appends the bytes from `at` on to `into`, at most `most` of them, and answers how many.
    /// After an error nothing was appended.
    fn read(&mut self, at: u64, most: usize, into: &mut Vec<u8>) -> Result<usize, PortError>
        ensures read { (d : DiskState) → told self.old ≡ Some d → Reads at most into.old.items into.new.items result d }
        ensures most { IfOk result (λ n. n ≤ most) }
        ensures appends { Appends into.old.items into.new.items result }
        ensures same { told self.new ≡ told self.old }
        ensures cause { HasCause (disk_faults self.old) (disk_faults self.new) result };

    /// Writes the bytes over those from `at` on, and on past the end.
    fn write_at(&mut self, at: u64, bytes: &[u8]) -> Result<(), PortError>
        requires { (d : DiskState) → told self.old ≡ Some d → at ≤ length d.bytes }
        ensures written { Tells (Writes at bytes.now result) (told self.old) (told self.new) }
        ensures memory { IsErrOf result PortError.OutOfMemory → IsSpent (disk_faults self.old) }
        ensures cause { HasCause (disk_faults self.old) (disk_faults self.new) result };

    /// Cuts the file to `len` bytes.
    fn cut(&mut self, len: u64) -> Result<(), PortError>
        requires { (d : DiskState) → told self.old ≡ Some d → len ≤ length d.bytes }
        ensures cut { Tells (Cuts len result) (told self.old) (told self.new) }
        ensures memory { IsErrOf result PortError.OutOfMemory → IsSpent (disk_faults self.old) }
        ensures cause { HasCause (disk_faults self.old) (disk_faults self.new) result };

    /// Puts all changes on the disk. After a failure they may be there all the same, or as before.
    fn sync(&mut self) -> Result<(), PortError>
        ensures synced { Tells (Syncs result) (told self.old) (told self.new) }
        ensures memory { IsErrOf result PortError.OutOfMemory → IsSpent (disk_faults self.old) }
        ensures cause { HasCause (disk_faults self.old) (disk_faults self.new) result };
}
