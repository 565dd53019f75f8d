// Writes payloads.
ghost use Rattle.std.specs.Prelude.{◌≡◌, ◌++◌, ◌∷◌, [], OnOk};
ghost use Rattle.std.specs.Int.{w64, to_be_bytes};
ghost use Rattle.frame_wire.specs.Store.{command as command_field};
ghost use Rattle.store_tables.specs.declared.row.TableRow.TheVariants as rows;
ghost use Rattle.wire_fields.specs.Fields.{number64, maybe};
ghost use Rattle.store_payloads.specs.Fields.{boot_fields, lane_fields, state_fields, reminder_fields, table_row};
ghost use Rattle.store_payloads.specs.Payloads.{command_payload, row_payload};

use crate::lanes::put_numbers;
use actor_names::{ActorKey, Member, Node, OutOfMemory, RecordName, Space};
use frame_wire::{StoreCommand, write_command};
use reminder_rows::Reminder;
use stamp_lanes::Lane;
use state_rows::StateEntry;
use wire_fields::{
    put_actor, put_blob, put_boot, put_byte, put_member, put_node_place, put_record_name,
    put_reminder, put_tag, put_text, put_u64,
};

// Appends the moment of a row, and its kind.
#[tactic(auto, unfolding(wire_fields::specs::Fields::number64))]
fn put_head(out: &mut Vec<u8>, now: u64, kind: u8) -> Result<(), OutOfMemory>
    ensures { OnOk result (out.new.items ≡ out.old.items ++ (to_be_bytes w64 now ++ kind ∷ [])) }
{
    put_u64(out, now)?;
    put_tag(out, kind)
}

/// Appends the payload of a command: its moment, in milliseconds since 1970, and its frame without the length.
#[tactic(auto, unfolding(wire_fields::specs::Fields::number64))]
pub fn write_command_payload(
    out: &mut Vec<u8>,
    command: &StoreCommand,
    now: u64,
) -> Result<(), OutOfMemory>
    requires { command_field.Fits command.now }
    ensures { OnOk result (out.new.items ≡ out.old.items ++ command_payload (record { now = now; command = command.now })) }
{
    put_u64(out, now)?;
    write_command(command, out)
}

#[tactic(auto, unfolding(crate::specs::Fields::boot_fields))]
fn put_boot_fields(
    out: &mut Vec<u8>,
    space: &Space,
    node: &Node,
    boot: u64,
) -> Result<(), OutOfMemory>
    requires { boot_fields.Fits ((space.now, node.now), boot) }
    ensures { OnOk result (out.new.items ≡ out.old.items ++ boot_fields.spell ((space.now, node.now), boot)) }
{
    put_node_place(out, space, node)?;
    put_boot(out, boot)
}

/// Appends the payload of a node's boot, in a snapshot made at `now`.
#[tactic(auto, unfolding(crate::specs::Fields::table_row))]
pub fn put_boot_row(
    out: &mut Vec<u8>,
    now: u64,
    space: &Space,
    node: &Node,
    boot: u64,
) -> Result<(), OutOfMemory>
    requires { table_row.Fits (rows.Boot space.now node.now boot) }
    ensures { OnOk result (out.new.items ≡ out.old.items ++ row_payload now (rows.Boot space.now node.now boot)) }
{
    put_head(out, now, 129)?;
    put_boot_fields(out, space, node, boot)?;
    Ok(())
}

#[tactic(auto, unfolding(crate::specs::Fields::lane_fields))]
fn put_lane_fields(out: &mut Vec<u8>, member: &Member, lane: &Lane) -> Result<(), OutOfMemory>
    requires { lane_fields.Fits (member.now, (lane.now.part, (lane.now.floor, lane.now.kept))) }
    ensures { OnOk result (out.new.items ≡ out.old.items ++ lane_fields.spell (member.now, (lane.now.part, (lane.now.floor, lane.now.kept)))) }
{
    put_member(out, member)?;
    put_byte(out, lane.part)?;
    put_u64(out, lane.floor)?;
    put_numbers(out, &lane.kept)
}

/// Appends the payload of a member's lane, in a snapshot made at `now`.
#[tactic(auto, unfolding(crate::specs::Fields::table_row))]
pub fn put_lane_row(
    out: &mut Vec<u8>,
    now: u64,
    member: &Member,
    lane: &Lane,
) -> Result<(), OutOfMemory>
    requires { table_row.Fits (rows.Lane member.now lane.now.part lane.now.floor lane.now.kept) }
    ensures { OnOk result (out.new.items ≡ out.old.items ++ row_payload now (rows.Lane member.now lane.now.part lane.now.floor lane.now.kept)) }
{
    put_head(out, now, 130)?;
    put_lane_fields(out, member, lane)?;
    Ok(())
}

fn put_absent(out: &mut Vec<u8>, absent: Option<u64>) -> Result<(), OutOfMemory>
    ensures { OnOk result (out.new.items ≡ out.old.items ++ (maybe number64).spell absent) }
{
    match absent {
        None => put_tag(out, 0),
        Some(moment) => {
            put_tag(out, 1)?;
            put_u64(out, moment)
        }
    }
}

#[tactic(auto, unfolding(crate::specs::Fields::state_fields))]
fn put_state_fields(out: &mut Vec<u8>, row: &StateEntry) -> Result<(), OutOfMemory>
    requires { state_fields.Fits row.now }
    ensures { OnOk result (out.new.items ≡ out.old.items ++ state_fields.spell row.now) }
{
    put_actor(out, &row.actor)?;
    put_text(out, row.key.as_str())?;
    put_blob(out, row.value.as_slice())?;
    put_absent(out, row.absent)
}

/// Appends the payload of an entry, in a snapshot made at `now`.
#[tactic(auto, unfolding(crate::specs::Fields::table_row))]
pub fn put_state_row(out: &mut Vec<u8>, now: u64, row: &StateEntry) -> Result<(), OutOfMemory>
    requires { table_row.Fits (rows.State row.now) }
    ensures { OnOk result (out.new.items ≡ out.old.items ++ row_payload now (rows.State row.now)) }
{
    put_head(out, now, 131)?;
    put_state_fields(out, row)?;
    Ok(())
}

#[tactic(auto, unfolding(crate::specs::Fields::reminder_fields))]
fn put_reminder_fields(
    out: &mut Vec<u8>,
    actor: &ActorKey,
    name: &RecordName,
    reminder: &Reminder,
) -> Result<(), OutOfMemory>
    requires { reminder_fields.Fits (actor.now, (name.now, reminder.now)) }
    ensures { OnOk result (out.new.items ≡ out.old.items ++ reminder_fields.spell (actor.now, (name.now, reminder.now))) }
{
    put_actor(out, actor)?;
    put_record_name(out, name)?;
    put_reminder(out, reminder)
}

/// Appends the payload of a reminder, in a snapshot made at `now`.
#[tactic(auto, unfolding(crate::specs::Fields::table_row))]
pub fn put_reminder_row(
    out: &mut Vec<u8>,
    now: u64,
    actor: &ActorKey,
    name: &RecordName,
    reminder: &Reminder,
) -> Result<(), OutOfMemory>
    requires { table_row.Fits (rows.Reminder actor.now name.now reminder.now) }
    ensures { OnOk result (out.new.items ≡ out.old.items ++ row_payload now (rows.Reminder actor.now name.now reminder.now)) }
{
    put_head(out, now, 132)?;
    put_reminder_fields(out, actor, name, reminder)?;
    Ok(())
}
