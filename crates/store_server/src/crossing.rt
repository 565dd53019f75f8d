// A fenced store may be sent to another thread. Its parts are shown to, one by one, since the check's own search ends
// before it has gone through all of them.
ghost use denote.Param.Send.{IsSend};
ghost use Rattle.fence_rows.specs.contracts.fenced.Fenced as fenced;
ghost use Rattle.store_core.specs.contracts.store.Store as store;
ghost use Rattle.store_tables.specs.contracts.tables.StoreTables as tables;

use disk_model::Disk;
use reminder_rows::ReminderRows;
use stamp_lanes::StampLanes;
use state_rows::StateRows;
use tx_journal::Journal;

// Values of the type may be sent to another thread.
fn sent<T: Send>()
    ensures { IsSend T.row }
{}

// What a store contains may be.
fn tables_cross()
    ensures { IsSend tables.the_row }
{
    sent::<StampLanes>();
    sent::<StateRows>();
    sent::<ReminderRows>();
}

// A store may be, over disks that may be.
fn store_crosses<D: Disk + Send>()
    ensures { IsSend (store.the_row D.row D.Disk) }
{
    tables_cross();
    sent::<Journal<D>>();
}

/// A fenced store may be, over disks that may be.
pub(crate) fn fenced_crosses<D: Disk + Send>()
    ensures { IsSend (fenced.the_row D.row D.Disk) }
{
    store_crosses::<D>();
}
