// What an opening of two files sees of each, and which of them it takes as the live one.
ghost use Rattle.std.specs.Prelude.{◌≡◌, ◌<◌, ◌≤◌, ◌^◌, ℕ, List, length, take, IfOk, IfErr, IfSome, Some};
ghost use Rattle.disk_model.specs.Disk.{DiskState};
ghost use Rattle.tx_journal.specs.declared.format.Format.TheVariants.{Two};
ghost use Rattle.tx_journal.specs.Pair.{generation_at, generation_in, first_generation};
ghost use Rattle.tx_journal.specs.Journal.{Costs, IsPortFault};
ghost use Rattle.tx_journal.specs.Calls.{generation_with};
ghost use Rattle.tx_journal.specs.Batches.{generation_with_all};
ghost use Rattle.tx_journal.specs.Seen.{Sees, is_second_seen};

use crate::error::JournalError;
use crate::format::Format;
use crate::kind::{FileKind, look_at};
use crate::scan::read_at;
use disk_model::Disk;
use std::alloc::Global;

// What was seen of a file: its length, its kind, and its Generation.
#[derive(Clone, Copy)]
pub(crate) struct Seen {
    pub(crate) len: u64,
    pub(crate) kind: FileKind,
    pub(crate) generation: Option<u64>,
}

const GENERATION: &[u8] = b"\x01\0\0\0\x11\0\0\0\0\0\0\0\0\x80";

// The number of a Generation, from the bytes that were read from its gate on; `None` if they are no Generation.
fn number_at(front: &[u8]) -> Option<u64>
    ensures { result ≡ generation_at front.now }
{
    if front.len() != 22 || &front[..14] != GENERATION {
        return None;
    }
    Some(u64::from_be_bytes([
        front[14], front[15], front[16], front[17], front[18], front[19], front[20], front[21],
    ]))
}

// The number of a Generation, if the payload is one.
fn number_in(payload: &[u8]) -> Option<u64>
    ensures { result ≡ generation_in payload.now }
{
    if payload.len() != 17 || &payload[..9] != &GENERATION[5..] {
        return None;
    }
    Some(u64::from_be_bytes([
        payload[9],
        payload[10],
        payload[11],
        payload[12],
        payload[13],
        payload[14],
        payload[15],
        payload[16],
    ]))
}

// The Generation of a live file after an append: the payload may be the file's first record, and a Generation.
pub(crate) fn generation_with(end: u64, generation: Option<u64>, payload: &[u8]) -> Option<u64>
    ensures { result ≡ generation_with end generation payload.now }
{
    match generation {
        Some(number) => Some(number),
        None if end == 9 => number_in(payload),
        None => None,
    }
}

// The same after a batch, from the number of its first payload.
pub(crate) fn generation_with_first(
    end: u64,
    generation: Option<u64>,
    first: Option<u64>,
) -> Option<u64>
    ensures { (payloads : List (List ℕ)) → first ≡ first_generation payloads → result ≡ generation_with_all end generation payloads }
{
    match generation {
        Some(number) => Some(number),
        None if end == 9 => first,
        None => None,
    }
}

// What a look at a file finds: its length, kind and Generation.
pub(crate) fn survey<D: Disk>(alloc: Global, disk: &mut D) -> Result<Seen, JournalError>
    ensures seen { (d : DiskState) → D.told disk.old ≡ Some d → IfOk result (Sees d) }
    ensures errors { IfErr result IsPortFault }
    ensures same { D.told disk.new ≡ D.told disk.old }
    ensures cause { Costs (D.disk_faults disk.old) (D.disk_faults disk.new) result }
{
    let len = match disk.len() {
        Ok(len) => len,
        Err(error) => return Err(error.into()),
    };
    let kind = look_at(alloc, disk, Format::Two)?;
    let mut front = Vec::new(alloc);
    read_at(disk, 8, 22, &mut front)?;
    let generation = match kind {
        FileKind::Journal(_) => number_at(&front),
        _ => None,
    };
    Ok(Seen {
        len,
        kind,
        generation,
    })
}

// Whether the second of two files is the live one, by what was seen of them.
pub(crate) fn is_second_newer(first: &Seen, second: &Seen) -> bool
    ensures { result ≡ is_second_seen first.now second.now }
{
    if matches!(second.kind, FileKind::Unmade) {
        return false;
    }
    if matches!(first.kind, FileKind::Unmade) {
        return true;
    }
    first.generation.unwrap_or(0) < second.generation.unwrap_or(0)
}
