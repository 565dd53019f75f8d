// A compaction: the contents are written as rows to the file that isn't live, which then becomes the live one.
ghost use Rattle.std.specs.Prelude.{◌≡◌, ◌<◌, false};
ghost use Rattle.store_payloads.specs.Fits.{TablesFit};
ghost use Rattle.tx_journal.specs.Calls.{is_alone};
ghost use Rattle.store_core.specs.Store.{IsConsistent};
ghost use Rattle.store_core.specs.Compacts.{end_by, Compacts};

use crate::events::CompactEnd;
use crate::staging::add_rows;
use disk_model::Disk;
use std::alloc::Global;
use store_payloads::payload_law;
use store_tables::StoreTables;
use tx_journal::{Journal, JournalError};

// How a compaction ends that wasn't made.
fn ended(error: JournalError) -> CompactEnd
    ensures { result ≡ end_by error }
{
    match error {
        JournalError::OutOfMemory => CompactEnd::OutOfMemory,
        _ => CompactEnd::Failed { error },
    }
}

/// Writes the tables that the payloads of the journal lead to anew, at `now`, if the live file has at least `least`
/// bytes.
pub(crate) fn compact<D: Disk>(
    alloc: Global,
    journal: &mut Journal<D>,
    tables: &mut StoreTables,
    least: u64,
    now: u64,
) -> CompactEnd
    requires now { now < 253370764800000 }
    requires consistent { IsConsistent journal.old tables.old.tables }
    requires fits { TablesFit tables.old.tables }
    requires pair { is_alone journal.old.other ≡ false }
    ensures compacts { Compacts least now (record { contents = tables.old.tables; journal = journal.old }) result (record { contents = tables.new.tables; journal = journal.new }) }
    ensures tables { tables.new.tables ≡ tables.old.tables }
    ensures pair { is_alone journal.new.other ≡ false }
{
    payload_law();
    tables.rows_law();
    if journal.is_broken() {
        return ended(JournalError::Reopen);
    }
    let len = journal.len();
    if len < least {
        return CompactEnd::NotNeeded { len };
    }
    if tables.reserve_walk().is_err() {
        return CompactEnd::OutOfMemory;
    }
    if let Err(error) = journal.compact_start() {
        return ended(error);
    }
    let rows = match add_rows(alloc, journal, tables, now) {
        Ok(rows) => rows,
        Err(error) => return ended(error),
    };
    if let Err(error) = journal.compact() {
        return ended(error);
    }
    CompactEnd::Compacted { rows }
}
