// A disk in memory, which keeps each of its past moments.
ghost use Rattle.std.specs.Prelude.{◌≡◌, ◌<◌, ◌≤◌, ℕ, ◌+◌, ◌↔◌, List, [], ◌∷◌, ◌++◌, length, take, drop, Some, IfOk, IfErr, IsTrue, IsErrOf, Contains};
ghost use Rattle.actor_ports.specs.Port.{HasCause, Appends};
ghost use Rattle.disk_model.specs.Disk.{DiskState, Tells, Writes, Cuts, Syncs, Reads, IsSpent, MayMake, MayLeave};
ghost use Rattle.disk_model.specs.Memory.{DiskMemory, new_disk, left_by, call_after, after_error, after_look, after_change, after_write, after_cut, after_sync};

use crate::change::Change;
use crate::disk::Disk;
use crate::past::{Past, keep};
use crate::torn::{overwrite, tear_all};
use actor_ports::PortError;
use std::alloc::{AllocError, Global};
use std::marker::Model;

/// A disk in memory, which fails at the calls whose numbers it was given.
///
/// For tests: it reports what a crash may leave, and its faults come where they are asked for, or when
/// there is no memory for its growth. Calls of all methods are numbered together, from 1; a call that
/// answers `OutOfMemory` has no number, nor has one past the number 2^64 - 1.
#[derive(Drop)]
pub struct MemDisk {
    alloc: Global,
    bytes: Vec<u8>,
    synced: Vec<u8>,
    pending: Vec<Change>,
    past: Vec<Past>,
    calls: u64,
    faults: u64,
    failing: Vec<u64>,
}

impl Model for MemDisk {
    ghost use Rattle.std.specs.Prelude.{◌≤◌, ◌<◌};
    ghost use Rattle.disk_model.specs.Disk.{MayLead};
    ghost use Rattle.disk_model.specs.Memory.{DiskMemory, disk_of};

    ghost Value = { DiskMemory };

    ghost view = { λ m. record { disk = disk_of m.bytes.items m.synced.items m.pending.items m.past.items; calls = m.calls; faults = m.faults; failing = m.failing.items } };

    ghost invariant = { λ m. (m.calls < 18446744073709551615 → m.faults ≤ m.calls) × MayLead m.pending.items m.synced.items m.bytes.items };
}

// Whether the call that comes after `calls` calls is to fail.
fn is_next_failing(failing: &[u64], calls: u64) -> bool
    ensures listed { IsTrue result ↔ Contains failing.now (calls + 1) }
    ensures countable { IsTrue result → calls < u64.MAX }
{
    calls < u64::MAX && failing.contains(&(calls + 1))
}

// The number of calls after one more; numbers end at 2^64 - 1.
fn next_call(calls: u64) -> u64
    ensures { result ≡ call_after calls }
{
    if calls == u64::MAX { calls } else { calls + 1 }
}

// The changes, and one more after them.
fn with_change(alloc: Global, pending: &[Change], change: Change) -> Result<Vec<Change>, AllocError>
    ensures { IfOk result (λ v. v.items ≡ pending.now ++ change ∷ []) }
{
    let mut changes = pending.to_vec(alloc)?;
    changes.push(change)?;
    Ok(changes)
}

// The bytes from `at` on, at most `most` of them.
fn piece_of(bytes: &[u8], at: usize, most: usize) -> &[u8]
    ensures { result.now ≡ take most (drop at bytes.now) }
{
    if at >= bytes.len() {
        return &[];
    }
    let rest = &bytes[at..];
    if most >= rest.len() {
        rest
    } else {
        &rest[..most]
    }
}

// A disk with these bytes, all of them synced.
fn disk_with(alloc: Global, bytes: Vec<u8>, failing: &[u64]) -> Result<MemDisk, AllocError>
    ensures { IfOk result (λ m. m ≡ new_disk bytes.items failing.now) }
{
    let synced = bytes.clone()?;
    let failing = failing.to_vec(alloc)?;
    Ok(MemDisk {
        alloc,
        bytes,
        synced,
        pending: Vec::new(alloc),
        past: Vec::new(alloc),
        calls: 0,
        faults: 0,
        failing,
    })
}

impl MemDisk {
    /// A disk with these bytes, all of them synced, whose calls with the numbers in `failing` are to fail.
    /// The only error is `OutOfMemory`.
    pub fn new(alloc: Global, bytes: &[u8], failing: &[u64]) -> Result<MemDisk, PortError>
        ensures holds { IfOk result (λ m. m ≡ new_disk bytes.now failing.now) }
        ensures memory { IfErr result (λ e. e ≡ PortError.OutOfMemory) }
    {
        let Ok(bytes) = Vec::from_slice(alloc, bytes) else {
            return Err(PortError::OutOfMemory);
        };
        match disk_with(alloc, bytes, failing) {
            Ok(disk) => Ok(disk),
            Err(_) => Err(PortError::OutOfMemory),
        }
    }

    /// Lends the bytes that a read gives.
    pub fn bytes(&self) -> &[u8]
        ensures { result.now ≡ self.now.disk.bytes }
    {
        self.bytes.as_slice()
    }

    /// A disk that a crash now may leave, without listed failures. The only error is `OutOfMemory`.
    ///
    /// With choice 0 no change since the last sync came through, with 1 all did. With any other choice each write has
    /// filled its whole range with the low byte of `choice`, and each cut was made if the byte above that is even.
    pub fn image(&self, choice: u64) -> Result<MemDisk, PortError>
        ensures leaves { IfOk result (λ m. MayLeave self.now.disk.instant m.disk.bytes) }
        ensures chosen { IfOk result (λ m. m ≡ new_disk (left_by choice self.now.disk) []) }
        ensures memory { IfErr result (λ e. e ≡ PortError.OutOfMemory) }
    {
        let Ok(left) = self.left_bytes(choice) else {
            return Err(PortError::OutOfMemory);
        };
        match disk_with(self.alloc, left, &[]) {
            Ok(disk) => Ok(disk),
            Err(_) => Err(PortError::OutOfMemory),
        }
    }

    // The bytes that a crash now may leave.
    fn left_bytes(&self, choice: u64) -> Result<Vec<u8>, AllocError>
        ensures leaves { IfOk result (λ v. MayLeave self.now.disk.instant v.items) }
        ensures chosen { IfOk result (λ v. v.items ≡ left_by choice self.now.disk) }
    {
        match choice {
            0 => Vec::from_slice(self.alloc, &self.synced),
            1 => Vec::from_slice(self.alloc, &self.bytes),
            _ => tear_all(self.alloc, &self.synced, &self.pending, choice),
        }
    }
}

impl MemDisk {
    // Makes a change that isn't synced yet; all memory is taken first.
    fn change(&mut self, change: Change, next: Vec<u8>) -> Result<(), PortError>
        requires { MayMake change self.old.disk.bytes next.items }
        ensures after { self.new ≡ after_change change next.items self.old result }
        ensures memory { IsErrOf result PortError.OutOfMemory → IsSpent self.old.faults }
    {
        let Ok(pending) = with_change(self.alloc, &self.pending, change) else {
            return Err(self.refuse());
        };
        if keep(self.alloc, &self.synced, &self.pending, &mut self.past).is_err() {
            return Err(self.refuse());
        }
        self.calls = next_call(self.calls);
        self.bytes = next;
        self.pending = pending;
        Ok(())
    }

    // The error of a call that fails: one fault more, as long as the count can rise.
    fn refuse(&mut self) -> PortError
        ensures after { self.new ≡ after_error self.old result }
        ensures numbered { self.old.calls < u64.MAX → result ≡ PortError.Failed }
        ensures memory { result ≡ PortError.OutOfMemory → IsSpent self.old.faults }
    {
        if self.faults == u64::MAX {
            return PortError::OutOfMemory;
        }
        self.calls = next_call(self.calls);
        self.faults += 1;
        PortError::Failed
    }
}

impl Disk for MemDisk {
    ghost told = { λ m. Some m.disk };

    ghost disk_faults = { λ m. m.faults };

    /// It fails exactly if the number of the call is listed.
    fn len(&mut self) -> Result<u64, PortError>
        ensures length { IfOk result (λ n. (d : DiskState) → Some self.old.disk ≡ Some d → n ≡ length d.bytes) }
        ensures same { Some self.new.disk ≡ Some self.old.disk }
        ensures cause { HasCause self.old.faults self.new.faults result }

        ensures listed { IsErrOf result PortError.Failed ↔ Contains self.old.failing (self.old.calls + 1) }
        ensures memory { IsErrOf result PortError.OutOfMemory → ⊥ }
        ensures after { self.new ≡ after_look self.old result }
    {
        if is_next_failing(&self.failing, self.calls) {
            return Err(self.refuse());
        }
        self.calls = next_call(self.calls);
        Ok(self.bytes.len() as u64)
    }

    /// It fails exactly if the number of the call is listed.
    fn read(&mut self, at: u64, most: usize, into: &mut Vec<u8>) -> Result<usize, PortError>
        ensures read { (d : DiskState) → Some self.old.disk ≡ Some d → Reads at most into.old.items into.new.items result d }
        ensures most { IfOk result (λ n. n ≤ most) }
        ensures appends { Appends into.old.items into.new.items result }
        ensures same { Some self.new.disk ≡ Some self.old.disk }
        ensures cause { HasCause self.old.faults self.new.faults result }

        ensures listed { IsErrOf result PortError.Failed ↔ Contains self.old.failing (self.old.calls + 1) }
        ensures after { self.new ≡ after_look self.old result }
    {
        if is_next_failing(&self.failing, self.calls) {
            return Err(self.refuse());
        }
        let piece = piece_of(&self.bytes, at as usize, most);
        if into.extend_from_slice(piece).is_err() {
            return Err(PortError::OutOfMemory);
        }
        let count = piece.len();
        self.calls = next_call(self.calls);
        Ok(count)
    }

    /// It fails if the number of the call is listed, and if there is no memory for the change.
    fn write_at(&mut self, at: u64, bytes: &[u8]) -> Result<(), PortError>
        requires { (d : DiskState) → Some self.old.disk ≡ Some d → at ≤ length d.bytes }
        ensures written { Tells (Writes at bytes.now result) (Some self.old.disk) (Some self.new.disk) }
        ensures memory { IsErrOf result PortError.OutOfMemory → IsSpent self.old.faults }
        ensures cause { HasCause self.old.faults self.new.faults result }

        ensures listed { Contains self.old.failing (self.old.calls + 1) → IsErrOf result PortError.Failed }
        ensures after { self.new ≡ after_write at bytes.now self.old result }
    {
        if is_next_failing(&self.failing, self.calls) {
            return Err(self.refuse());
        }
        let Ok(next) = overwrite(self.alloc, &self.bytes, at as usize, bytes) else {
            return Err(self.refuse());
        };
        let n = bytes.len() as u64;
        self.change(Change::Over { at, n }, next)
    }

    /// It fails if the number of the call is listed, and if there is no memory for the change.
    fn cut(&mut self, len: u64) -> Result<(), PortError>
        requires { (d : DiskState) → Some self.old.disk ≡ Some d → len ≤ length d.bytes }
        ensures cut { Tells (Cuts len result) (Some self.old.disk) (Some self.new.disk) }
        ensures memory { IsErrOf result PortError.OutOfMemory → IsSpent self.old.faults }
        ensures cause { HasCause self.old.faults self.new.faults result }

        ensures listed { Contains self.old.failing (self.old.calls + 1) → IsErrOf result PortError.Failed }
        ensures after { self.new ≡ after_cut len self.old result }
    {
        if is_next_failing(&self.failing, self.calls) {
            return Err(self.refuse());
        }
        let Ok(next) = self.bytes[..len as usize].to_vec(self.alloc) else {
            return Err(self.refuse());
        };
        self.change(Change::CutTo { len }, next)
    }

    /// It fails if the number of the call is listed, and if there is no memory for the change.
    fn sync(&mut self) -> Result<(), PortError>
        ensures synced { Tells (Syncs result) (Some self.old.disk) (Some self.new.disk) }
        ensures memory { IsErrOf result PortError.OutOfMemory → IsSpent self.old.faults }
        ensures cause { HasCause self.old.faults self.new.faults result }

        ensures listed { Contains self.old.failing (self.old.calls + 1) → IsErrOf result PortError.Failed }
        ensures after { self.new ≡ after_sync self.old result }
    {
        if is_next_failing(&self.failing, self.calls) {
            return Err(self.refuse());
        }
        let Ok(synced) = Vec::from_slice(self.alloc, &self.bytes) else {
            return Err(self.refuse());
        };
        if keep(self.alloc, &self.synced, &self.pending, &mut self.past).is_err() {
            return Err(self.refuse());
        }
        self.calls = next_call(self.calls);
        self.synced = synced;
        self.pending = Vec::new(self.alloc);
        Ok(())
    }
}
