// Compaction of a store.
ghost use Rattle.std.specs.Prelude.{◌≡◌, ◌<◌};
ghost use Rattle.store_core.specs.Compacts.{Compacts};

use super::Store;
use crate::compaction::compact;
use crate::events::CompactEnd;
use disk_model::Disk;
use store_payloads::payload_law;

impl<D: Disk> Store<D> {
    /// Writes the contents anew, as they are at `now`, in milliseconds since 1970, if the live file has at least `least`
    /// bytes. The contents stay, whatever it answers.
    pub fn compact(&mut self, least: u64, now: u64) -> CompactEnd
        requires { now < 253370764800000 }
        ensures { Compacts least now self.old result self.new }
    {
        payload_law();
        self.tables.rows_law();
        compact(self.alloc, &mut self.journal, &mut self.tables, least, now)
    }
}
