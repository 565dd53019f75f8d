// The rows of a compaction: the tables are walked over, and each row is written and added in turn.
ghost use Rattle.std.specs.Prelude.{◌≡◌, ◌≤◌, ◌+◌, [], ◌∷◌, map, None, Some, IfSome, OnOk, option_copied};
ghost use Rattle.stamp_lanes.specs.Restores.{member_of};
ghost use Rattle.stamp_lanes.specs.Stamps.{node_at};
ghost use Rattle.store_tables.specs.declared.row.TableRow.TheVariants as rows;
ghost use Rattle.store_tables.specs.Tables.{Tables};
ghost use Rattle.store_tables.specs.Rows.{boot_rows, lane_rows, member_rows, state_rows, reminder_rows};
ghost use Rattle.store_payloads.specs.Fields.{state_fields};
ghost use Rattle.store_payloads.specs.Fits.{BootFits, LaneFits, LanesFit, ReminderFits, TablesFit};
ghost use Rattle.store_payloads.specs.Laws.{snapshot_payloads};
ghost use Rattle.store_payloads.specs.Payloads.{row_payload};
ghost use Rattle.store_core.specs.Store.{IsConsistent};
ghost use Rattle.store_core.specs.Compacts.{MayAdd, AddsRow, AddsAll};

use actor_names::Member;
use disk_model::Disk;
use reminder_rows::ReminderRow;
use stamp_lanes::{Lane, NodeLanes};
use state_rows::StateEntry;
use std::alloc::Global;
use store_payloads::{put_boot_row, put_lane_row, put_reminder_row, put_state_row};
use store_tables::StoreTables;
use tx_journal::{Journal, JournalError};

// Adds the row of a boot.
fn add_boot<D: Disk>(
    journal: &mut Journal<D>,
    out: &mut Vec<u8>,
    now: u64,
    node: &NodeLanes,
) -> Result<(), JournalError>
    requires may { MayAdd journal.old }
    requires fits { BootFits node.now }
    ensures adds { (t : Tables) → IsConsistent journal.old t → AddsRow t (row_payload now (rows.Boot node.now.space node.now.node node.now.boot)) result journal.old journal.new }
    ensures may { OnOk result (MayAdd journal.new) }
{
    out.clear();
    if put_boot_row(out, now, &node.space, &node.node, node.boot).is_err() {
        return Err(JournalError::OutOfMemory);
    }
    journal.compact_add(out.as_slice())
}

// Adds a row for each boot, and answers how many there are.
fn add_boots<D: Disk>(
    journal: &mut Journal<D>,
    tables: &StoreTables,
    out: &mut Vec<u8>,
    now: u64,
) -> Result<u64, JournalError>
    requires may { MayAdd journal.old }
    requires consistent { IsConsistent journal.old tables.now.tables }
    requires fits { TablesFit tables.now.tables }
    ensures adds { AddsAll tables.now.tables (map (row_payload now) (boot_rows tables.now.tables.nodes)) result journal.old journal.new }
    ensures may { OnOk result (MayAdd journal.new) }
{
    tables.order_law();
    let mut place = None;
    for count in 0..u64::MAX {
        let Some(node) = tables.next_node(place) else {
            return Ok(count);
        };
        add_boot(journal, out, now, node)?;
        place = Some(node);
    }
    // No memory has so many nodes.
    Err(JournalError::OutOfMemory)
}

// Adds the row of a lane.
fn add_lane<D: Disk>(
    journal: &mut Journal<D>,
    out: &mut Vec<u8>,
    now: u64,
    node: &NodeLanes,
    lane: &Lane,
) -> Result<(), JournalError>
    requires may { MayAdd journal.old }
    requires fits { LaneFits node.now lane.now }
    ensures adds { (t : Tables) → IsConsistent journal.old t → AddsRow t (row_payload now (rows.Lane (member_of node.now) lane.now.part lane.now.floor lane.now.kept)) result journal.old journal.new }
    ensures may { OnOk result (MayAdd journal.new) }
{
    let member = Member {
        space: node.space.copy(),
        node: node.node.copy(),
        boot: node.boot,
    };
    out.clear();
    if put_lane_row(out, now, &member, lane).is_err() {
        return Err(JournalError::OutOfMemory);
    }
    journal.compact_add(out.as_slice())
}

// The part of a lane.
fn part_of(lane: Option<&Lane>) -> Option<u8>
    ensures some { IfSome (option_copied lane.entry) (λ l. result ≡ Some l.part) }
    ensures none { option_copied lane.entry ≡ None → result ≡ None }
{
    match lane {
        None => None,
        Some(lane) => Some(lane.part),
    }
}

// Adds a row for each lane of a node.
fn add_lanes_of<D: Disk>(
    journal: &mut Journal<D>,
    tables: &StoreTables,
    node: &NodeLanes,
    out: &mut Vec<u8>,
    now: u64,
) -> Result<u64, JournalError>
    requires may { MayAdd journal.old }
    requires consistent { IsConsistent journal.old tables.now.tables }
    requires fits { LanesFit node.now }
    requires known { node_at node.now.space node.now.node tables.now.tables.nodes ≡ Some node.now }
    ensures adds { AddsAll tables.now.tables (map (row_payload now) (member_rows (member_of node.now) node.now.lanes)) result journal.old journal.new }
    ensures may { OnOk result (MayAdd journal.new) }
{
    tables.order_law();
    let mut place = None;
    for count in 0..u64::MAX {
        let Some(lane) = tables.next_lane(&node.space, &node.node, part_of(place)) else {
            return Ok(count);
        };
        add_lane(journal, out, now, node, lane)?;
        place = Some(lane);
    }
    // A node has at most 256 lanes.
    Err(JournalError::OutOfMemory)
}

// Adds a row for each lane.
fn add_lanes<D: Disk>(
    journal: &mut Journal<D>,
    tables: &StoreTables,
    out: &mut Vec<u8>,
    now: u64,
) -> Result<u64, JournalError>
    requires may { MayAdd journal.old }
    requires consistent { IsConsistent journal.old tables.now.tables }
    requires fits { TablesFit tables.now.tables }
    ensures adds { AddsAll tables.now.tables (map (row_payload now) (lane_rows tables.now.tables.nodes)) result journal.old journal.new }
    ensures may { OnOk result (MayAdd journal.new) }
{
    tables.order_law();
    let mut place = None;
    let mut count: u64 = 0;
    for _ in 0..u64::MAX {
        let Some(node) = tables.next_node(place) else {
            return Ok(count);
        };
        let more = add_lanes_of(journal, tables, node, out, now)?;
        let Some(sum) = count.checked_add(more) else {
            return Err(JournalError::OutOfMemory);
        };
        count = sum;
        place = Some(node);
    }
    // No memory has so many nodes.
    Err(JournalError::OutOfMemory)
}

// Adds the row of an entry.
fn add_entry<D: Disk>(
    journal: &mut Journal<D>,
    out: &mut Vec<u8>,
    now: u64,
    row: &StateEntry,
) -> Result<(), JournalError>
    requires may { MayAdd journal.old }
    requires fits { state_fields.Fits row.now }
    ensures adds { (t : Tables) → IsConsistent journal.old t → AddsRow t (row_payload now (rows.State row.now)) result journal.old journal.new }
    ensures may { OnOk result (MayAdd journal.new) }
{
    out.clear();
    if put_state_row(out, now, row).is_err() {
        return Err(JournalError::OutOfMemory);
    }
    journal.compact_add(out.as_slice())
}

// Adds a row for each entry.
fn add_entries<D: Disk>(
    journal: &mut Journal<D>,
    tables: &StoreTables,
    out: &mut Vec<u8>,
    now: u64,
) -> Result<u64, JournalError>
    requires may { MayAdd journal.old }
    requires consistent { IsConsistent journal.old tables.now.tables }
    requires fits { TablesFit tables.now.tables }
    ensures adds { AddsAll tables.now.tables (map (row_payload now) (state_rows tables.now.tables.rows)) result journal.old journal.new }
    ensures may { OnOk result (MayAdd journal.new) }
{
    tables.order_law();
    let mut place = None;
    for count in 0..u64::MAX {
        let Some(row) = tables.next_entry(place) else {
            return Ok(count);
        };
        add_entry(journal, out, now, row)?;
        place = Some(row);
    }
    // No memory has so many entries.
    Err(JournalError::OutOfMemory)
}

// Adds the row of a reminder.
fn add_reminder<D: Disk>(
    journal: &mut Journal<D>,
    out: &mut Vec<u8>,
    now: u64,
    row: &ReminderRow,
) -> Result<(), JournalError>
    requires may { MayAdd journal.old }
    requires fits { ReminderFits row.now }
    ensures adds { (t : Tables) → IsConsistent journal.old t → AddsRow t (row_payload now (rows.Reminder row.now.key.actor row.now.key.name row.now.reminder)) result journal.old journal.new }
    ensures may { OnOk result (MayAdd journal.new) }
{
    out.clear();
    let put = put_reminder_row(out, now, &row.key.actor, &row.key.name, &row.reminder);
    if put.is_err() {
        return Err(JournalError::OutOfMemory);
    }
    journal.compact_add(out.as_slice())
}

// Adds a row for each reminder.
fn add_reminders<D: Disk>(
    journal: &mut Journal<D>,
    tables: &StoreTables,
    out: &mut Vec<u8>,
    now: u64,
) -> Result<u64, JournalError>
    requires may { MayAdd journal.old }
    requires consistent { IsConsistent journal.old tables.now.tables }
    requires fits { TablesFit tables.now.tables }
    requires room { 1 ≤ tables.now.reminder_room }
    ensures adds { AddsAll tables.now.tables (map (row_payload now) (reminder_rows tables.now.tables.reminders)) result journal.old journal.new }
    ensures may { OnOk result (MayAdd journal.new) }
{
    tables.order_law();
    let mut place = None;
    for count in 0..u64::MAX {
        let Some(row) = tables.next_reminder(place) else {
            return Ok(count);
        };
        add_reminder(journal, out, now, row)?;
        place = Some(row);
    }
    // No memory has so many reminders.
    Err(JournalError::OutOfMemory)
}

fn sum_of(a: u64, b: u64, c: u64, d: u64) -> Option<u64>
    ensures { IfSome result (λ sum. sum ≡ a + b + c + d) }
{
    a.checked_add(b)?.checked_add(c)?.checked_add(d)
}

/// Adds a row for each entry of the tables, and answers how many there are.
pub(crate) fn add_rows<D: Disk>(
    alloc: Global,
    journal: &mut Journal<D>,
    tables: &StoreTables,
    now: u64,
) -> Result<u64, JournalError>
    requires may { MayAdd journal.old }
    requires consistent { IsConsistent journal.old tables.now.tables }
    requires fits { TablesFit tables.now.tables }
    requires room { 1 ≤ tables.now.reminder_room }
    ensures { AddsAll tables.now.tables (snapshot_payloads now tables.now.tables) result journal.old journal.new }
{
    let mut out = Vec::new(alloc);
    let boots = add_boots(journal, tables, &mut out, now)?;
    let lanes = add_lanes(journal, tables, &mut out, now)?;
    let entries = add_entries(journal, tables, &mut out, now)?;
    let reminders = add_reminders(journal, tables, &mut out, now)?;
    // No memory has more rows than that.
    match sum_of(boots, lanes, entries, reminders) {
        Some(sum) => Ok(sum),
        None => Err(JournalError::OutOfMemory),
    }
}
