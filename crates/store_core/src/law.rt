// What holds over whole lists of events. The function that states it does nothing.
ghost use Rattle.store_core.specs.Opens.{HaveReadings, RefusesContents, RefusesToday};
ghost use Rattle.store_core.specs.Runs.{KeepsAcknowledged, RisksOneCommand, AcknowledgesOnce};

use store_tables::outcome_law;

/// Over every list of commands and compactions: the contents are what the acknowledged commands alone lead to; a crash
/// at any moment leaves what was acknowledged, perhaps with the one command under way; and no stamp is acknowledged
/// twice. Once a fault was met, both stay possible until the store is opened again. Files with contents are refused only
/// by a disk, for want of memory, or because their compaction into today's form is; if the live one isn't of the first
/// format, only by a disk or for want of memory.
pub fn store_law()
    ensures keeps { KeepsAcknowledged }
    ensures risks { RisksOneCommand }
    ensures once { AcknowledgesOnce }
    ensures readings { HaveReadings }
    ensures refused { RefusesContents }
    ensures today { RefusesToday }
{
    outcome_law();
}
