// Finds the record of an index, starting from one that was found before.
ghost use Rattle.std.specs.Prelude.{◌≡◌, ◌<◌, ◌≤◌, ◌^◌, ℕ, ◌+◌, List, IfOk, IfErr, IfSome, Some};
ghost use Rattle.disk_model.specs.Disk.{DiskState};
ghost use Rattle.tx_journal.specs.Journal.{Costs, IsAtRest, IsGateOf, Finds, IsOpenError};
ghost use Rattle.tx_journal.specs.Calls.{place_in};
ghost use Rattle.tx_journal.specs.declared.format.Format.{Format};

use crate::error::JournalError;
use crate::scan::{next_gate, payload_at};
use crate::window::closed;
use disk_model::Disk;
use std::alloc::Global;

// A record's index, and the place of the gate before it.
#[derive(Clone, Copy)]
pub(crate) struct Cursor {
    pub(crate) index: u64,
    pub(crate) gate: u64,
}

// How many bytes a search looks at.
const WIDTH: usize = 5;

// The gate of the first record.
pub(crate) const FIRST: Cursor = Cursor { index: 0, gate: 8 };

// The place of a row among the records: in a pair, a Generation isn't counted as a row. Indices are below 2^30.
pub(crate) fn place_of(is_pair: bool, generation: Option<u64>, index: u64) -> u64
    requires { index < 2 ^ 30 }
    ensures { result ≡ place_in is_pair generation index }
{
    match generation {
        Some(_) if is_pair => index + 1,
        _ => index,
    }
}

// Where a search for an index begins: at the record found before, or at the first one if that is past the index.
pub(crate) fn start_at(cursor: Cursor, index: u64) -> Cursor
    ensures within { result.index ≤ index }
    ensures gate { (payloads : List (List ℕ)) → IsGateOf payloads cursor.index cursor.gate → IsGateOf payloads result.index result.gate }
{
    if index < cursor.index { FIRST } else { cursor }
}

// The payload at that index, and the place of the gate behind it; `None` past the last.
pub(crate) fn find<D: Disk>(
    alloc: Global,
    disk: &mut D,
    from: Cursor,
    index: u64,
) -> Result<Option<(Vec<u8>, u64)>, JournalError>
    requires { from.index ≤ index }
    ensures found { (d : DiskState) → D.told disk.old ≡ Some d → (newest format : Format) (payloads : List (List ℕ)) (end : ℕ) → IsAtRest newest format payloads end d.bytes → IsGateOf payloads from.index from.gate → Finds payloads index result }
    ensures errors { IfErr result IsOpenError }
    ensures same { D.told disk.new ≡ D.told disk.old }
    ensures cause { Costs (D.disk_faults disk.old) (D.disk_faults disk.new) result }
{
    let len = match disk.len() {
        Ok(len) => len,
        Err(error) => return Err(error.into()),
    };
    if len < from.gate {
        return Err(JournalError::Damaged { offset: from.gate });
    }
    let mut window = closed(alloc);
    let mut gate = from.gate;
    for step in from.index..index {
        match next_gate(disk, gate, len, WIDTH, &mut window)? {
            Some(next) => gate = next,
            None => return Ok(None),
        }
    }
    match next_gate(disk, gate, len, WIDTH, &mut window)? {
        Some(next) => {
            let payload = payload_at(alloc, disk, gate, next)?;
            Ok(Some((payload, next)))
        }
        None => Ok(None),
    }
}
