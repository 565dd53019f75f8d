// Rows of a snapshot: the tables are walked over in order, and rows are taken in.
ghost use Rattle.std.specs.Prelude.{◌≡◌, ◌≤◌, true, false, None, Some, if◌then◌else◌, option_copied, IfOk, OnOk, OnErr};
ghost use Rattle.lists_and_limits.specs.Lists.{first_behind};
ghost use Rattle.lists_and_limits.specs.Walks.{following};
ghost use Rattle.stamp_lanes.specs.Stamps.{node_at, after_node, next_lane};
ghost use Rattle.state_rows.specs.Entries.{row_cmp};
ghost use Rattle.reminder_rows.specs.Reminders.{row_cmp as reminder_cmp};
ghost use Rattle.store_tables.specs.Tables.{no_tables};
ghost use Rattle.store_tables.specs.Rows.{table_rows, Restores, AreInOrder, restored};
ghost use Rattle.store_tables.specs.Restored.{TakesRow};
ghost use Rattle.store_tables.specs.Ordered.{AreOrdered};

use super::StoreTables;
use crate::row::TableRow;
use actor_names::{MOST_BOOT, Node, OutOfMemory, Space};
use reminder_rows::{ReminderRow, reminder_law};
use stamp_lanes::{Lane, NodeLanes, RestoreError, nodes_law, restored_law};
use state_rows::{StateEntry, state_law};

// Whether a boot or a lane was taken in.
fn taken_by(done: Result<(), RestoreError>) -> Result<bool, OutOfMemory>
    ensures { TakesRow done result }
{
    match done {
        Ok(()) => Ok(true),
        Err(RestoreError::OutOfMemory) => Err(OutOfMemory),
        Err(_) => Ok(false),
    }
}

impl StoreTables {
    /// The first node behind another one, or the first of all. It takes no memory.
    pub fn next_node(&self, after: Option<&NodeLanes>) -> Option<&NodeLanes>
        ensures { option_copied result ≡ first_behind (after_node (option_copied after.entry)) self.now.tables.nodes }
    {
        self.lanes.next_node(after)
    }

    /// The first lane of a node whose part is above another one, or its first of all. It takes no memory.
    pub fn next_lane(&self, space: &Space, node: &Node, after: Option<u8>) -> Option<&Lane>
        ensures { option_copied result ≡ next_lane after (node_at space.now node.now self.now.tables.nodes) }
    {
        self.lanes.next_lane(space, node, after)
    }

    /// The first entry behind another one, or the first of all, also if its time is over. It takes no memory.
    pub fn next_entry(&self, after: Option<&StateEntry>) -> Option<&StateEntry>
        ensures { option_copied result ≡ following row_cmp (option_copied after.entry) self.now.tables.rows }
    {
        self.state.following(after)
    }

    /// Takes the memory that a walk over the reminders needs.
    pub fn reserve_walk(&mut self) -> Result<(), OutOfMemory>
        ensures room { OnOk result (1 ≤ self.new.reminder_room) }
        ensures tables { self.new.tables ≡ self.old.tables }
    {
        self.reminders.reserve()
    }

    /// The first reminder behind another one in order of actor and name, or the first of all. `reserve_walk` has to come
    /// before. It takes no memory.
    pub fn next_reminder(&self, after: Option<&ReminderRow>) -> Option<&ReminderRow>
        requires { 1 ≤ self.now.reminder_room }
        ensures { option_copied result ≡ following reminder_cmp (option_copied after.entry) self.now.tables.reminders }
    {
        self.reminders.following(after)
    }

    /// The tables are in order, each key once.
    pub fn order_law(&self)
        ensures { AreOrdered self.now.tables }
    {
        nodes_law(&self.lanes);
        state_law(&self.state);
        reminder_law(&self.reminders);
    }

    /// The rows of the tables stand in order, each key once, and lead from nothing to the tables: none is refused.
    pub fn rows_law(&self)
        ensures order { AreInOrder None (table_rows self.now.tables) }
        ensures restores { Restores (table_rows self.now.tables) no_tables self.now.tables }
    {
        nodes_law(&self.lanes);
        restored_law(&self.lanes);
        state_law(&self.state);
        reminder_law(&self.reminders);
    }

    /// Takes in a row of a snapshot. Answers false exactly if it can't be one of tables that have all rows taken in
    /// before; then, and after `OutOfMemory`, the tables are as before.
    pub fn restore(&mut self, row: TableRow) -> Result<bool, OutOfMemory>
        ensures taken { IfOk result (λ taken. restored row self.old.tables ≡ (if taken then Some self.new.tables else None)) }
        ensures refused { IfOk result (λ taken. taken ≡ false → self.new.tables ≡ self.old.tables) }
        ensures err { OnErr result (self.new.tables ≡ self.old.tables) }
    {
        reminder_law(&self.reminders);
        match row {
            TableRow::Boot { space, node, boot } => {
                if boot > MOST_BOOT {
                    return Ok(false);
                }
                taken_by(self.lanes.restore_boot(&space, &node, boot))
            }
            TableRow::Lane {
                member,
                part,
                floor,
                kept,
            } => taken_by(
                self.lanes
                    .restore_lane(&member, part, floor, kept.into_vec()),
            ),
            TableRow::State { row } => self.state.restore(row),
            TableRow::Reminder {
                actor,
                name,
                reminder,
            } => {
                if reminder.schedule.first.is_none()
                    || self.reminders.get(&actor, &name).is_some()
                {
                    return Ok(false);
                }
                self.reminders.reserve()?;
                self.reminders.put(actor, name, reminder);
                Ok(true)
            }
        }
    }
}
