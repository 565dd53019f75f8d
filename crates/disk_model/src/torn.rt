// What a crash may leave of a disk in memory: one of its images, chosen by a number.
ghost use Rattle.std.specs.Prelude.{◌≡◌, ◌<◌, ◌≤◌, ◌%◌, ℕ, Bool, length, replicate, IfOk};
ghost use Rattle.disk_model.specs.Disk.{MayMake, MayLead, overwritten};
ghost use Rattle.disk_model.specs.Memory.{written_by, cut_by, torn_by, torn_by_all};

use crate::change::Change;
use std::alloc::{AllocError, Global};

// The bytes, overwritten by `new` from `at` on.
pub(crate) fn overwrite(
    alloc: Global,
    bytes: &[u8],
    at: usize,
    new: &[u8],
) -> Result<Vec<u8>, AllocError>
    requires { at ≤ length bytes.now }
    ensures { IfOk result (λ v. v.items ≡ overwritten bytes.now at new.now) }
{
    let mut next = bytes[..at].to_vec(alloc)?;
    next.extend_from_slice(new)?;
    if new.len() < bytes.len() - at {
        next.extend_from_slice(&bytes[at + new.len()..])?;
    }
    Ok(next)
}

// `n` bytes of one value.
fn fill(alloc: Global, value: u8, n: usize) -> Result<Vec<u8>, AllocError>
    ensures { IfOk result (λ v. v.items ≡ replicate n value) }
{
    Ok(vec![in alloc; value; n]?)
}

// What a crash leaves of a write that wasn't synced: one value in its whole range.
// A range that a cut has put past the end has no effect.
fn tear_write(
    alloc: Global,
    bytes: &[u8],
    at: u64,
    n: u64,
    value: u8,
) -> Result<Vec<u8>, AllocError>
    ensures made { IfOk result (λ v. MayMake (Change.Over at n) bytes.now v.items) }
    ensures chosen { IfOk result (λ v. v.items ≡ written_by value at n bytes.now) }
{
    let place = at as usize;
    if place > bytes.len() {
        return bytes.to_vec(alloc);
    }
    let torn = fill(alloc, value, n as usize)?;
    overwrite(alloc, bytes, place, &torn)
}

// What a crash leaves of a cut that wasn't synced.
fn tear_cut(alloc: Global, bytes: &[u8], len: u64, is_made: bool) -> Result<Vec<u8>, AllocError>
    ensures made { IfOk result (λ v. MayMake (Change.CutTo len) bytes.now v.items) }
    ensures chosen { IfOk result (λ v. v.items ≡ cut_by is_made len bytes.now) }
{
    let end = len as usize;
    if is_made && end < bytes.len() {
        bytes[..end].to_vec(alloc)
    } else {
        bytes.to_vec(alloc)
    }
}

// What a crash leaves of a change that wasn't synced: a write has filled its whole range with the low byte
// of `choice`, and a cut was made if the byte above it is even.
fn tear(alloc: Global, bytes: &[u8], change: Change, choice: u64) -> Result<Vec<u8>, AllocError>
    ensures made { IfOk result (λ v. MayMake change bytes.now v.items) }
    ensures chosen { IfOk result (λ v. v.items ≡ torn_by choice change bytes.now) }
{
    match change {
        Change::Over { at, n } => tear_write(alloc, bytes, at, n, (choice % 256) as u8),
        Change::CutTo { len } => tear_cut(alloc, bytes, len, choice / 256 % 2 == 0),
    }
}

// What a crash leaves of the bytes if none of these changes was synced.
pub(crate) fn tear_all(
    alloc: Global,
    synced: &[u8],
    pending: &[Change],
    choice: u64,
) -> Result<Vec<u8>, AllocError>
    ensures leads { IfOk result (λ v. MayLead pending.now synced.now v.items) }
    ensures chosen { IfOk result (λ v. v.items ≡ torn_by_all choice pending.now synced.now) }
{
    let mut image = synced.to_vec(alloc)?;
    for change in pending {
        image = tear(alloc, &image, *change, choice)?;
    }
    Ok(image)
}
