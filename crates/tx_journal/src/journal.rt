// The journal over one disk, or over the live one of two.
ghost use Rattle.std.specs.Prelude.{◌≡◌, ◌<◌, ◌≤◌, ℕ, List, length, take, drop, true, false, ◌||◌, IsErrOf, OnOk, IfOk, IfErr, IfSome, IfNone, Some, None, option_map};
ghost use Rattle.disk_model.specs.Disk.{DiskState, Tells};
ghost use Rattle.tx_journal.specs.File.{Image, name};
ghost use Rattle.tx_journal.specs.Pair.{Files, Holds, first_generation};
ghost use Rattle.tx_journal.specs.Journal.{IsOpenError, Rises, Replays, Costs, is_fault};
ghost use Rattle.tx_journal.specs.Calls.{Side, JournalState, told, tell_one, first_side, second_side, append_refusal, Appends, Commits, Committed, rows_in, is_alone, HoldsFormat, IsMeasured, IsOpened, OpensFiles, RefusesFiles, KeepsFiles};

use crate::batch::ROOM;
use crate::error::JournalError;
use crate::find::{Cursor, FIRST, find, place_of, start_at};
use crate::format::Format;
use crate::open::settle;
use crate::record::{behind_gate, fill, put_records, zeros};
use crate::survey::generation_with;
use disk_model::Disk;
use std::alloc::Global;
use std::marker::Model;

mod batches;
mod compact;
mod pair;

const LONGEST: usize = 5_242_880;

const MOST_BYTES: u64 = 1_073_741_824;

/// Payloads in a file, in order. An append is on the disk before it is answered.
///
/// A journal of two disks can be compacted: new rows are written to the file that isn't live, which then becomes the
/// live one.
#[derive(Drop)]
pub struct Journal<D: Disk> {
    live: D,
    other: Option<D>,
    is_second_live: bool,
    format: Format,
    generation: Option<u64>,
    end: u64,
    cursor: Cursor,
    is_shut: bool,
    staged: Option<u64>,
    is_broken: bool,
    buffer: Vec<u8>,
}

impl<D: Disk> Model for Journal<D> {
    ghost use Rattle.std.specs.Prelude.{length, option_map};
    ghost use Rattle.tx_journal.specs.Calls.{JournalState};
    ghost use Rattle.tx_journal.specs.Sound.{IsSound};

    ghost Value = { JournalState };

    ghost view = { λ j. record { live = record { told = D.told j.live; faults = D.disk_faults j.live }; other = option_map (λ d. record { told = D.told d; faults = D.disk_faults d }) j.other; is_second_live = j.is_second_live; format = j.format; generation = j.generation; end = j.end; staged = j.staged; is_broken = j.is_broken } };

    ghost invariant = { λ j. IsSound (record { live = record { told = D.told j.live; faults = D.disk_faults j.live }; other = option_map (λ d. record { told = D.told d; faults = D.disk_faults d }) j.other; is_second_live = j.is_second_live; format = j.format; generation = j.generation; end = j.end; staged = j.staged; is_broken = j.is_broken }) j.cursor j.is_shut (length j.buffer.items) };
}

impl<D: Disk> Journal<D> {
    /// Opens a file of its own: makes it if `create` is true and it isn't made yet, and reads it otherwise.
    /// A refused opening hands the disk back.
    pub fn open(alloc: Global, disk: D, create: bool) -> Result<Journal<D>, (JournalError, D)>
        ensures opened { IfOk result (λ j. Tells (OpensFiles create) (tell_one (D.told disk)) (told j)) }
        ensures state { IfOk result (λ j. IsOpened j × (j.other ≡ None)) }
        ensures format { IfOk result (λ j. j.format ≡ Format.One) }
        ensures refused { IfErr result (λ r. IsOpenError r.0 × ((files : Files) → tell_one (D.told disk) ≡ Some files → RefusesFiles create r.0 files)) }
        ensures crash { IfOk result (λ j. Tells (KeepsFiles create) (tell_one (D.told disk)) (told j)) }
        ensures crash_refused { IfErr result (λ r. Tells (KeepsFiles create) (tell_one (D.told disk)) (tell_one (D.told r.1))) }
        ensures cause { IfErr result (λ r. r.0 ≡ JournalError.DiskFault → Rises (D.disk_faults disk) (D.disk_faults r.1)) }
        ensures count { IfOk result (λ j. D.disk_faults disk ≤ j.live.faults) }
    {
        let mut disk = disk;
        let Ok(buffer) = zeros(alloc, ROOM) else {
            return Err((JournalError::OutOfMemory, disk));
        };
        match settle(alloc, &mut disk, create) {
            Ok((end, format)) => Ok(Journal {
                live: disk,
                other: None,
                is_second_live: false,
                format,
                generation: None,
                end,
                cursor: FIRST,
                is_shut: false,
                staged: None,
                is_broken: false,
                buffer,
            }),
            Err(error) => Err((error, disk)),
        }
    }

    /// Ends the journal and hands back its disks, as they are.
    pub fn close(self) -> (D, Option<D>)
        ensures first { record { told = D.told result.0; faults = D.disk_faults result.0 } ≡ first_side self }
        ensures second { option_map (λ d. record { told = D.told d; faults = D.disk_faults d }) result.1 ≡ second_side self }
    {
        let Journal {
            live,
            other,
            is_second_live,
            ..
        } = self;
        match other {
            None => (live, None),
            Some(other) => {
                if is_second_live {
                    (other, Some(live))
                } else {
                    (live, Some(other))
                }
            }
        }
    }

    /// Lends the first disk.
    pub fn disk(&self) -> &D
        ensures { record { told = D.told result.now; faults = D.disk_faults result.now } ≡ first_side self.now }
    {
        match &self.other {
            None => &self.live,
            Some(other) => {
                if self.is_second_live {
                    other
                } else {
                    &self.live
                }
            }
        }
    }

    /// Lends the second disk; `None` for a journal of one.
    pub fn second(&self) -> Option<&D>
        ensures some { IfSome result (λ d. second_side self.now ≡ Some record { told = D.told d.now; faults = D.disk_faults d.now }) }
        ensures none { IfNone result (second_side self.now ≡ None) }
    {
        match &self.other {
            None => None,
            Some(other) => {
                if self.is_second_live {
                    Some(&self.live)
                } else {
                    Some(other)
                }
            }
        }
    }

    /// The length of the live file in bytes, up to and with the closed gate behind its last record.
    pub fn len(&self) -> u64
        ensures end { result ≡ self.now.end }
        ensures measured { IsMeasured self.now }
    {
        self.end
    }

    /// The format of the live file, 1 or 2.
    pub fn format(&self) -> u8
        ensures first { self.now.format ≡ Format.One → result ≡ 1 }
        ensures second { self.now.format ≡ Format.Two → result ≡ 2 }
        ensures held { HoldsFormat self.now }
        ensures name { self.now.is_broken ≡ false → (d : DiskState) → self.now.live.told ≡ Some d → take 7 (drop 1 d.bytes) ≡ name self.now.format }
    {
        match self.format {
            Format::One => 1,
            Format::Two => 2,
        }
    }

    /// The number of the live file's Generation, if it has one.
    pub fn generation(&self) -> Option<u64>
        ensures number { result ≡ self.now.generation }
        ensures first { self.now.is_broken ≡ false → is_alone self.now.other ≡ false → (files : Files) → told self.now ≡ Some files → (held : Image) → Holds held files → result ≡ first_generation held.payloads }
    {
        self.generation
    }

    /// Whether a call met a disk fault, so that the journal must be opened again.
    pub fn is_broken(&self) -> bool
        ensures { result ≡ self.now.is_broken }
    {
        self.is_broken
    }

    /// The payload at the index, counted from 0; `None` past the last. It writes nothing.
    /// In a pair, a Generation isn't counted.
    pub fn replay(&mut self, alloc: Global, index: u64) -> Result<Option<Vec<u8>>, JournalError>
        ensures reopen { self.old.is_broken ≡ true → (IsErrOf result JournalError.Reopen) × (self.new ≡ self.old) }
        ensures found { self.old.is_broken ≡ false → (files : Files) → told self.old ≡ Some files → (held : Image) → Holds held files → Replays (rows_in self.old.other held.payloads) index result }
        ensures same { self.new ≡ record self.old { live = record { told = self.old.live.told; faults = self.new.live.faults }; is_broken = self.new.is_broken } }
        ensures broken { self.new.is_broken ≡ (self.old.is_broken || is_fault result) }
        ensures cause { Costs self.old.live.faults self.new.live.faults result }
    {
        if self.is_broken {
            return Err(JournalError::Reopen);
        }
        if index >= MOST_BYTES {
            return Ok(None);
        }
        let place = place_of(self.other.is_some(), self.generation, index);
        let from = start_at(self.cursor, place);
        match find(alloc, &mut self.live, from, place) {
            Ok(Some((payload, gate))) => {
                self.cursor = Cursor {
                    index: place + 1,
                    gate,
                };
                Ok(Some(payload))
            }
            Ok(None) => Ok(None),
            Err(error) => {
                self.is_broken = error == JournalError::DiskFault;
                Err(error)
            }
        }
    }

    /// Adds a payload. After `Ok` it is on the disk; after `DiskFault` it may or may not be there, until the journal is
    /// opened again. A compaction under way is given up.
    pub fn append(&mut self, payload: &[u8]) -> Result<(), JournalError>
        ensures refused { (e : JournalError) → append_refusal self.old payload.now ≡ Some e → (result ≡ Err e) × (self.new ≡ self.old) }
        ensures taken { append_refusal self.old payload.now ≡ None → Appends payload.now result self.old self.new }
        ensures crash { Tells (Commits payload.now) (told self.old) (told self.new) }
        ensures done { OnOk result (Tells (Committed payload.now) (told self.old) (told self.new)) }
    {
        if self.is_broken {
            return Err(JournalError::Reopen);
        }
        let n = payload.len();
        if n > LONGEST {
            return Err(JournalError::TooLong { n: n as u64 });
        }
        let size = 5 + n;
        if self.end + size as u64 > MOST_BYTES {
            return Err(JournalError::Full { len: self.end });
        }
        fill(&mut self.buffer, payload);
        self.staged = None;
        let record = behind_gate(&self.buffer, size);
        if put_records(&mut self.live, self.end, record).is_err() {
            self.is_broken = true;
            return Err(JournalError::DiskFault);
        }
        self.generation = generation_with(self.end, self.generation, payload);
        self.end += size as u64;
        Ok(())
    }
}
