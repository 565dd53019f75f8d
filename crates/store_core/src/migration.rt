// What an opening does with a file of the first format: it compacts it.
ghost use Rattle.std.specs.Prelude.{◌≡◌, false, true, OnOk};
ghost use Rattle.store_payloads.specs.Fits.{TablesFit};
ghost use Rattle.tx_journal.specs.declared.format.Format.TheVariants.{One, Two};
ghost use Rattle.tx_journal.specs.Calls.{is_alone, HoldsFormat};
ghost use Rattle.store_core.specs.Store.{IsConsistent, IsCurrent};
ghost use Rattle.store_core.specs.Migrations.{HasNumber, IsNamed, migration_end, Rewrites};

use crate::compaction::compact;
use crate::events::CompactEnd;
use disk_model::Disk;
use std::alloc::Global;
use store_payloads::payload_law;
use store_tables::StoreTables;
use tx_journal::{Journal, JournalError};

// The format in which payloads have spaces.
const SECOND: u8 = 2;

/// Whether the live file of an opened journal is of the second format.
pub(crate) fn is_up_to_date<D: Disk>(journal: &Journal<D>) -> bool
    ensures today { result ≡ true → journal.now.format ≡ Two }
    ensures old { result ≡ false → journal.now.format ≡ One }
    ensures named { IsNamed journal.now }
    ensures held { HoldsFormat journal.now }
{
    journal.format() == SECOND
}

// What the end of the compaction of a live file of this length means to an opening.
fn migration_end(end: CompactEnd, len: u64) -> Result<(), JournalError>
    ensures { migration_end len end result }
{
    match end {
        CompactEnd::Compacted { .. } => Ok(()),
        CompactEnd::Failed { error } => match error {
            JournalError::Spent { .. } => Err(JournalError::Damaged { offset: len }),
            _ => Err(error),
        },
        CompactEnd::NotNeeded { .. } | CompactEnd::OutOfMemory => Err(JournalError::OutOfMemory),
    }
}

/// Writes the tables that the payloads of an opened journal lead to anew, with 0 as the moment of each row.
pub(crate) fn migrate<D: Disk>(
    alloc: Global,
    journal: &mut Journal<D>,
    tables: &mut StoreTables,
) -> Result<(), JournalError>
    requires works { journal.old.is_broken ≡ false }
    requires consistent { IsConsistent journal.old tables.old.tables }
    requires fits { TablesFit tables.old.tables }
    requires pair { is_alone journal.old.other ≡ false }
    requires number { HasNumber journal.old }
    ensures rewrites { Rewrites result (record { contents = tables.old.tables; journal = journal.old }) (record { contents = tables.new.tables; journal = journal.new }) }
    ensures tables { tables.new.tables ≡ tables.old.tables }
    ensures current { OnOk result (IsCurrent journal.new tables.new.tables) }
    ensures pair { is_alone journal.new.other ≡ false }
{
    payload_law();
    tables.rows_law();
    let len = journal.len();
    migration_end(compact(alloc, journal, tables, 0, 0), len)
}
