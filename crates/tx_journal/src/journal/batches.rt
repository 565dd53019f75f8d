// Several payloads in one commit.
ghost use Rattle.std.specs.Prelude.{◌≡◌, OnOk, IfOk, Some, None};
ghost use Rattle.disk_model.specs.Disk.{Tells};
ghost use Rattle.tx_journal.specs.Calls.{told};
ghost use Rattle.tx_journal.specs.Batches.{stage_refusal, Stages, batch_refusal, AppendsAll, CommitsAll, CommittedAll};

use super::{Journal, LONGEST, MOST_BYTES};
use crate::batch::Batch;
use crate::error::JournalError;
use crate::record::put_records;
use crate::staged::Staged;
use crate::survey::generation_with_first;
use disk_model::Disk;

impl<D: Disk> Journal<D> {
    /// Adds a payload to a batch, unless an append behind the payloads of the batch would be refused. Nothing is
    /// written. After `NoRoom` the payload has room once the batch was appended and cleared.
    pub fn stage(&self, batch: &mut Batch, payload: &[u8]) -> Result<Staged, JournalError>
        ensures refused { (e : JournalError) → stage_refusal self.now batch.old payload.now ≡ Some e → (result ≡ Err e) × (batch.new ≡ batch.old) }
        ensures taken { stage_refusal self.now batch.old payload.now ≡ None → Stages payload.now result batch.old batch.new }
        ensures fits { IfOk result (λ staged. batch_refusal self.now batch.new ≡ None) }
    {
        if self.is_broken {
            return Err(JournalError::Reopen);
        }
        let n = payload.len();
        if n > LONGEST {
            return Err(JournalError::TooLong { n: n as u64 });
        }
        let end = self.end + batch.size() as u64;
        if end + 5 + n as u64 > MOST_BYTES {
            return Err(JournalError::Full { len: end });
        }
        Ok(batch.add(payload))
    }

    /// Adds the payloads of a batch, and leaves the batch as it is. After `Ok` all of them are on the disk; after
    /// `DiskFault` all of them may be there or none, until the journal is opened again. A compaction under way is given
    /// up. An empty batch makes no call of the disk and changes nothing.
    pub fn append_all(&mut self, batch: &Batch) -> Result<(), JournalError>
        ensures refused { (e : JournalError) → batch_refusal self.old batch.now ≡ Some e → (result ≡ Err e) × (self.new ≡ self.old) }
        ensures taken { batch_refusal self.old batch.now ≡ None → AppendsAll batch.now result self.old self.new }
        ensures crash { Tells (CommitsAll batch.now) (told self.old) (told self.new) }
        ensures done { OnOk result (Tells (CommittedAll batch.now) (told self.old) (told self.new)) }
    {
        if self.is_broken {
            return Err(JournalError::Reopen);
        }
        let size = batch.size() as u64;
        if self.end + size > MOST_BYTES {
            return Err(JournalError::Full { len: self.end });
        }
        if size == 0 {
            return Ok(());
        }
        self.staged = None;
        if put_records(&mut self.live, self.end, batch.text()).is_err() {
            self.is_broken = true;
            return Err(JournalError::DiskFault);
        }
        self.generation = generation_with_first(self.end, self.generation, batch.generation());
        self.end += size;
        Ok(())
    }
}
