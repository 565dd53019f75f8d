// Compaction: new rows are written to the file that isn't live, which then becomes the live one.
ghost use Rattle.std.specs.Prelude.{◌≡◌, ◌+◌, ℕ, OnOk, Some, None};
ghost use Rattle.disk_model.specs.Disk.{Tells};
ghost use Rattle.tx_journal.specs.Calls.{JournalState, told, next_number, start_refusal, Starts, OtherKeeps, Keeps, Kept, HasBegun, add_refusal, given_up, Adds, HasRow, end_refusal, Turns, Replaces, Replaced};

use super::{Journal, LONGEST, MOST_BYTES};
use crate::compaction::{add, begin, finish};
use crate::error::JournalError;
use crate::find::FIRST;
use crate::format::Format;
use crate::record::fill;
use disk_model::Disk;

// A Generation of this number or above has none after it.
const LAST: u64 = 1 << 62;

impl<D: Disk> Journal<D> {
    /// Starts a compaction: the file that isn't live is closed and cut, and gets its name and a Generation one above
    /// the live file's. A compaction under way is started anew.
    pub fn compact_start(&mut self) -> Result<(), JournalError>
        ensures refused { (e : JournalError) → start_refusal self.old ≡ Some e → (result ≡ Err e) × (self.new ≡ self.old) }
        ensures taken { start_refusal self.old ≡ None → Starts result self.old self.new }
        ensures crash { Tells Keeps (told self.old) (told self.new) }
        ensures kept { OnOk result (Tells Kept (told self.old) (told self.new)) }
        ensures count { OnOk result (OtherKeeps self.old.other self.new.other) }
        ensures begun { OnOk result (Tells (HasBegun self.old.is_second_live (next_number self.old.generation)) (told self.old) (told self.new)) }
    {
        if self.is_broken {
            return Err(JournalError::Reopen);
        }
        let Some(other) = &mut self.other else {
            return Err(JournalError::OneDisk);
        };
        let count = self.generation.unwrap_or(0);
        if count >= LAST {
            return Err(JournalError::Spent { count });
        }
        self.staged = None;
        if begin(other, self.is_shut, count + 1).is_err() {
            self.is_broken = true;
            return Err(JournalError::DiskFault);
        }
        self.is_shut = true;
        self.staged = Some(31);
        Ok(())
    }

    /// Adds a row to the compaction under way. It isn't synced before `compact`.
    /// If the row is too long or there is no room for it, the compaction is given up.
    pub fn compact_add(&mut self, payload: &[u8]) -> Result<(), JournalError>
        ensures refused { (e : JournalError) → add_refusal self.old payload.now ≡ Some e → (result ≡ Err e) × (self.new ≡ given_up e self.old) }
        ensures taken { add_refusal self.old payload.now ≡ None → Adds payload.now result self.old self.new }
        ensures crash { Tells Keeps (told self.old) (told self.new) }
        ensures kept { OnOk result (Tells Kept (told self.old) (told self.new)) }
        ensures count { OnOk result (OtherKeeps self.old.other self.new.other) }
        ensures added { OnOk result (Tells (HasRow self.old.is_second_live payload.now) (told self.old) (told self.new)) }
    {
        if self.is_broken {
            return Err(JournalError::Reopen);
        }
        let Some(at) = self.staged else {
            return Err(JournalError::NotStarted);
        };
        let Some(other) = &mut self.other else {
            return Err(JournalError::NotStarted);
        };
        let n = payload.len();
        if n > LONGEST {
            self.staged = None;
            return Err(JournalError::TooLong { n: n as u64 });
        }
        let size = 5 + n;
        if at + size as u64 > MOST_BYTES {
            self.staged = None;
            return Err(JournalError::Full { len: at });
        }
        fill(&mut self.buffer, payload);
        if add(other, at, &self.buffer[..size + 1]).is_err() {
            self.staged = None;
            self.is_broken = true;
            return Err(JournalError::DiskFault);
        }
        self.staged = Some(at + size as u64);
        Ok(())
    }

    /// Ends the compaction: its rows are put on the disk, and their file is the live one from then on.
    pub fn compact(&mut self) -> Result<(), JournalError>
        ensures refused { (e : JournalError) → end_refusal self.old ≡ Some e → (result ≡ Err e) × (self.new ≡ self.old) }
        ensures taken { end_refusal self.old ≡ None → Turns result self.old self.new }
        ensures crash { Tells (Replaces self.old.is_second_live) (told self.old) (told self.new) }
        ensures done { OnOk result (Tells (Replaced self.old.is_second_live) (told self.old) (told self.new)) }
    {
        if self.is_broken {
            return Err(JournalError::Reopen);
        }
        let Some(end) = self.staged else {
            return Err(JournalError::NotStarted);
        };
        let Some(other) = &mut self.other else {
            return Err(JournalError::NotStarted);
        };
        self.staged = None;
        if finish(other).is_err() {
            self.is_broken = true;
            return Err(JournalError::DiskFault);
        }
        std::mem::swap(&mut self.live, other);
        self.is_second_live = !self.is_second_live;
        self.format = Format::Two;
        self.generation = Some(self.generation.unwrap_or(0) + 1);
        self.end = end;
        self.cursor = FIRST;
        self.is_shut = false;
        Ok(())
    }
}
