// Reads a file from gate to gate.
ghost use Rattle.std.specs.Prelude.{◌≡◌, ◌<◌, ◌≤◌, ℕ, ◌+◌, ◌-◌, ◌^◌, true, [], length, take, drop, OnOk, IfOk, IfErr, Some, IfSome};
ghost use Rattle.std.specs.Int.{w32, to_be_bytes};
ghost use Rattle.disk_model.specs.Disk.{DiskState};
ghost use Rattle.tx_journal.specs.Journal.{Costs, StandsAt, Scans, IsPortFault, IsOpenError};
ghost use Rattle.tx_journal.specs.File.{most_bytes, name, head, is_known};
ghost use Rattle.tx_journal.specs.Window.{IsShown};
ghost use Rattle.tx_journal.specs.declared.format.Format.{Format};

use crate::error::JournalError;
use crate::window::{Window, closed, front_at, show};
use disk_model::Disk;
use std::alloc::Global;

pub(crate) const LONGEST: u64 = 5_242_880;

// How many bytes a scan reads at once.
const WIDTH: usize = 65_536;

// Replaces `front` by the bytes from `at` on, at most `most`; by none after an error.
pub(crate) fn read_at<D: Disk>(
    disk: &mut D,
    at: u64,
    most: usize,
    front: &mut Vec<u8>,
) -> Result<(), JournalError>
    ensures read { (d : DiskState) → D.told disk.old ≡ Some d → OnOk result (front.new.items ≡ take most (drop at d.bytes)) }
    ensures most { OnOk result (length front.new.items ≤ most) }
    ensures failed { IfErr result (λ e. front.new.items ≡ []) }
    ensures same { D.told disk.new ≡ D.told disk.old }
    ensures cause { Costs (D.disk_faults disk.old) (D.disk_faults disk.new) result }
    ensures errors { IfErr result IsPortFault }
{
    front.clear();
    match disk.read(at, most, front) {
        Ok(_) => Ok(()),
        Err(error) => Err(error.into()),
    }
}

// The length that is written behind a gate.
fn size_of(front: &[u8]) -> u64
    requires { length front.now ≡ 5 }
    ensures spelled { take 4 (drop 1 front.now) ≡ to_be_bytes w32 result }
    ensures small { result < 2 ^ 32 }
{
    u32::from_be_bytes([front[1], front[2], front[3], front[4]]) as u64
}

// What is at a gate: `None` if it is closed, else the place of the next gate behind the record.
pub(crate) fn next_gate<D: Disk>(
    disk: &mut D,
    at: u64,
    len: u64,
    width: usize,
    window: &mut Window,
) -> Result<Option<u64>, JournalError>
    requires wide { 5 ≤ width }
    requires shown { IsShown (D.told disk.old) window.old.at window.old.bytes.items }
    requires len { (d : DiskState) → D.told disk.old ≡ Some d → len ≡ length d.bytes }
    requires within { at ≤ len }
    ensures errors { IfErr result IsOpenError }
    ensures stands { (d : DiskState) → D.told disk.old ≡ Some d → StandsAt at result d }
    ensures shown { IsShown (D.told disk.new) window.new.at window.new.bytes.items }
    ensures next { IfOk result (λ next. (at < len) × IfSome next (λ n. (at + 5 ≤ n) × (n ≤ len))) }
    ensures same { D.told disk.new ≡ D.told disk.old }
    ensures cause { Costs (D.disk_faults disk.old) (D.disk_faults disk.new) result }
{
    if at == len {
        return Err(JournalError::Damaged { offset: at });
    }
    show(disk, at, width, window)?;
    let front = front_at(window, at);
    if front.is_empty() {
        return Err(JournalError::Damaged { offset: at });
    }
    if front[0] != 1 {
        return Ok(None);
    }
    if front.len() < 5 {
        return Err(JournalError::Damaged { offset: at + 1 });
    }
    let size = size_of(front);
    if size > LONGEST || len - at < 5 + size {
        return Err(JournalError::Damaged { offset: at + 1 });
    }
    Ok(Some(at + 5 + size))
}

// The offset behind the closed gate that ends the records, found by reading from the first gate on.
pub(crate) fn scan<D: Disk>(alloc: Global, disk: &mut D, len: u64) -> Result<u64, JournalError>
    requires len { (d : DiskState) → D.told disk.old ≡ Some d → len ≡ length d.bytes }
    requires some { 8 ≤ len }
    requires few { len ≤ most_bytes }
    ensures errors { IfErr result IsOpenError }
    ensures scanned { (d : DiskState) → D.told disk.old ≡ Some d → (newest format : Format) → is_known newest (name format) ≡ true → take 8 d.bytes ≡ head format → Scans newest format result d }
    ensures end { IfOk result (λ end. (9 ≤ end) × (end ≤ len)) }
    ensures same { D.told disk.new ≡ D.told disk.old }
    ensures cause { Costs (D.disk_faults disk.old) (D.disk_faults disk.new) result }
{
    let mut window = closed(alloc);
    let mut gate = 8;
    while let Some(next) = next_gate(disk, gate, len, WIDTH, &mut window)? {
        gate = next;
    }
    Ok(gate + 1)
}

// The payload of a record between two gates.
pub(crate) fn payload_at<D: Disk>(
    alloc: Global,
    disk: &mut D,
    gate: u64,
    next: u64,
) -> Result<Vec<u8>, JournalError>
    requires between { gate + 5 ≤ next }
    ensures payload { (d : DiskState) → D.told disk.old ≡ Some d → IfOk result (λ v. v.items ≡ take (next - gate - 5) (drop (gate + 5) d.bytes)) }
    ensures errors { IfErr result IsPortFault }
    ensures same { D.told disk.new ≡ D.told disk.old }
    ensures cause { Costs (D.disk_faults disk.old) (D.disk_faults disk.new) result }
{
    let mut payload = Vec::new(alloc);
    read_at(disk, gate + 5, (next - gate - 5) as usize, &mut payload)?;
    Ok(payload)
}
