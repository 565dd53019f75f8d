// The kinds of commands and their fields, read from the start of some bytes and appended to others.
ghost use Rattle.std.specs.Prelude.{◌≡◌, ◌++◌, ◌∷◌, OnOk};
ghost use Rattle.wire_fields.specs.Fields.{maybe, MaybeFits};
ghost use Rattle.wire_fields.specs.Gives.{Gives};
ghost use Rattle.wire_fields.specs.Records.{due_key};
ghost use Rattle.frame_wire.specs.StoreParts.{stamp, due_limit};
ghost use Rattle.frame_wire.specs.Store.{command_kind, command_row, command_fields, CommandFits};
ghost use Rattle.frame_wire.specs.declared.store_kind.CommandKind.TheVariants as kinds;

use crate::store_command::{Stamp, StateOps, StoreCommand};
use crate::store_kind::CommandKind;
use lists_and_limits::OutOfMemory;
use reminder_rows::DueKey;
use state_rows::StateKey;
use std::alloc::Global;
use wire_fields::{
    Fault, actor_at, byte_at, due_key_at, member_at, moment_at, node_place_at, ops_at, put_actor,
    put_byte, put_due_key, put_member, put_moment, put_node_place, put_ops, put_record_name,
    put_reminder, put_tag, put_text, put_u16, put_u64, record_name_at, reminder_at, text_at,
    u16_at, u64_at,
};

/// The most reminders that a Due asks for.
pub const MOST_DUE: u16 = 256;

#[tactic(auto, unfolding(crate::specs::StoreParts::stamp))]
pub(crate) fn stamp_at(rest: &mut &[u8]) -> Result<Stamp, Fault>
    ensures { Gives (λ x. (x, rest.new.now)) result (stamp.at rest.old.now) }
{
    let member = member_at(rest)?;
    let part = byte_at(rest)?;
    let number = u64_at(rest)?;
    Ok(Stamp {
        member,
        part,
        number,
    })
}

fn after_at(alloc: Global, rest: &mut &[u8]) -> Result<Option<DueKey>, Fault>
    ensures { Gives (λ x. (x, rest.new.now)) result ((maybe due_key).at rest.old.now) }
{
    match *rest {
        [0, others @ ..] => {
            *rest = others;
            Ok(None)
        }
        [1, others @ ..] => {
            *rest = others;
            let key = due_key_at(alloc, rest)?;
            Ok(Some(key))
        }
        _ => Err(Fault::Field { left: rest.len() }),
    }
}

#[tactic(auto, unfolding(crate::specs::StoreParts::due_limit))]
fn due_limit_at(rest: &mut &[u8]) -> Result<u16, Fault>
    ensures { Gives (λ x. (x, rest.new.now)) result (due_limit.at rest.old.now) }
{
    let left = rest.len();
    let n = u16_at(rest)?;
    if n == 0 || n > MOST_DUE {
        return Err(Fault::Field { left });
    }
    Ok(n)
}

fn boot_at(rest: &mut &[u8]) -> Result<StoreCommand, Fault>
    ensures { Gives (λ x. (x, rest.new.now)) result (command_row kinds.Boot rest.old.now) }
{
    let (space, node) = node_place_at(rest)?;
    Ok(StoreCommand::Boot { space, node })
}

fn tx_at(alloc: Global, rest: &mut &[u8]) -> Result<StoreCommand, Fault>
    ensures { Gives (λ x. (x, rest.new.now)) result (command_row kinds.Tx rest.old.now) }
{
    let stamp = stamp_at(rest)?;
    let actor = actor_at(alloc, rest)?;
    let ops = StateOps::from_vec(ops_at(alloc, rest)?);
    Ok(StoreCommand::Tx { stamp, actor, ops })
}

fn get_at(alloc: Global, rest: &mut &[u8]) -> Result<StoreCommand, Fault>
    ensures { Gives (λ x. (x, rest.new.now)) result (command_row kinds.Get rest.old.now) }
{
    let actor = actor_at(alloc, rest)?;
    let key = StateKey::from_string(text_at(alloc, rest)?);
    Ok(StoreCommand::Get { actor, key })
}

fn put_reminder_at(alloc: Global, rest: &mut &[u8]) -> Result<StoreCommand, Fault>
    ensures { Gives (λ x. (x, rest.new.now)) result (command_row kinds.PutReminder rest.old.now) }
{
    let stamp = stamp_at(rest)?;
    let actor = actor_at(alloc, rest)?;
    let name = record_name_at(alloc, rest)?;
    let reminder = reminder_at(alloc, rest)?;
    Ok(StoreCommand::PutReminder {
        stamp,
        actor,
        name,
        reminder,
    })
}

fn get_reminder_at(alloc: Global, rest: &mut &[u8]) -> Result<StoreCommand, Fault>
    ensures { Gives (λ x. (x, rest.new.now)) result (command_row kinds.GetReminder rest.old.now) }
{
    let actor = actor_at(alloc, rest)?;
    let name = record_name_at(alloc, rest)?;
    Ok(StoreCommand::GetReminder { actor, name })
}

fn delete_reminder_at(alloc: Global, rest: &mut &[u8]) -> Result<StoreCommand, Fault>
    ensures { Gives (λ x. (x, rest.new.now)) result (command_row kinds.DeleteReminder rest.old.now) }
{
    let stamp = stamp_at(rest)?;
    let actor = actor_at(alloc, rest)?;
    let name = record_name_at(alloc, rest)?;
    Ok(StoreCommand::DeleteReminder { stamp, actor, name })
}

fn due_at(alloc: Global, rest: &mut &[u8]) -> Result<StoreCommand, Fault>
    ensures { Gives (λ x. (x, rest.new.now)) result (command_row kinds.Due rest.old.now) }
{
    let after = after_at(alloc, rest)?;
    let limit = due_limit_at(rest)?;
    Ok(StoreCommand::Due { after, limit })
}

fn fired_at(alloc: Global, rest: &mut &[u8]) -> Result<StoreCommand, Fault>
    ensures { Gives (λ x. (x, rest.new.now)) result (command_row kinds.Fired rest.old.now) }
{
    let stamp = stamp_at(rest)?;
    let actor = actor_at(alloc, rest)?;
    let name = record_name_at(alloc, rest)?;
    let moment = moment_at(rest)?;
    Ok(StoreCommand::Fired {
        stamp,
        actor,
        name,
        moment,
    })
}

// The fields of a kind.
pub(crate) fn command_at(
    alloc: Global,
    kind: CommandKind,
    rest: &mut &[u8],
) -> Result<StoreCommand, Fault>
    ensures { Gives (λ x. (x, rest.new.now)) result (command_row kind rest.old.now) }
{
    match kind {
        CommandKind::Boot => boot_at(rest),
        CommandKind::Tx => tx_at(alloc, rest),
        CommandKind::Get => get_at(alloc, rest),
        CommandKind::PutReminder => put_reminder_at(alloc, rest),
        CommandKind::GetReminder => get_reminder_at(alloc, rest),
        CommandKind::DeleteReminder => delete_reminder_at(alloc, rest),
        CommandKind::Due => due_at(alloc, rest),
        CommandKind::Fired => fired_at(alloc, rest),
    }
}

// The kind of a command.
pub(crate) fn command_kind(command: &StoreCommand) -> CommandKind
    ensures { result ≡ command_kind command.now }
{
    match command {
        StoreCommand::Boot { .. } => CommandKind::Boot,
        StoreCommand::Tx { .. } => CommandKind::Tx,
        StoreCommand::Get { .. } => CommandKind::Get,
        StoreCommand::PutReminder { .. } => CommandKind::PutReminder,
        StoreCommand::GetReminder { .. } => CommandKind::GetReminder,
        StoreCommand::DeleteReminder { .. } => CommandKind::DeleteReminder,
        StoreCommand::Due { .. } => CommandKind::Due,
        StoreCommand::Fired { .. } => CommandKind::Fired,
    }
}

#[tactic(auto, unfolding(crate::specs::StoreParts::stamp))]
pub(crate) fn put_stamp(out: &mut Vec<u8>, one: &Stamp) -> Result<(), OutOfMemory>
    requires { stamp.Fits one.now }
    ensures { OnOk result (out.new.items ≡ out.old.items ++ stamp.spell one.now) }
{
    put_member(out, &one.member)?;
    put_byte(out, one.part)?;
    put_u64(out, one.number)
}

fn put_after(out: &mut Vec<u8>, after: &Option<DueKey>) -> Result<(), OutOfMemory>
    requires { MaybeFits due_key.Fits after.now }
    ensures { OnOk result (out.new.items ≡ out.old.items ++ (maybe due_key).spell after.now) }
{
    match after {
        None => put_tag(out, 0),
        Some(key) => {
            put_tag(out, 1)?;
            put_due_key(out, key)
        }
    }
}

#[tactic(auto, unfolding(crate::specs::StoreParts::due_limit))]
fn put_due_limit(out: &mut Vec<u8>, limit: u16) -> Result<(), OutOfMemory>
    ensures { OnOk result (out.new.items ≡ out.old.items ++ due_limit.spell limit) }
{
    put_u16(out, limit)
}

// Writes the fields of a command.
pub(crate) fn put_command_fields(
    out: &mut Vec<u8>,
    command: &StoreCommand,
) -> Result<(), OutOfMemory>
    requires { CommandFits command.now }
    ensures { OnOk result (out.new.items ≡ out.old.items ++ command_fields command.now) }
{
    match command {
        StoreCommand::Boot { space, node } => put_node_place(out, space, node),
        StoreCommand::Tx { stamp, actor, ops } => {
            put_stamp(out, stamp)?;
            put_actor(out, actor)?;
            put_ops(out, ops.as_slice())
        }
        StoreCommand::Get { actor, key } => {
            put_actor(out, actor)?;
            put_text(out, key.as_str())
        }
        StoreCommand::PutReminder {
            stamp,
            actor,
            name,
            reminder,
        } => {
            put_stamp(out, stamp)?;
            put_actor(out, actor)?;
            put_record_name(out, name)?;
            put_reminder(out, reminder)
        }
        StoreCommand::GetReminder { actor, name } => {
            put_actor(out, actor)?;
            put_record_name(out, name)
        }
        StoreCommand::DeleteReminder { stamp, actor, name } => {
            put_stamp(out, stamp)?;
            put_actor(out, actor)?;
            put_record_name(out, name)
        }
        StoreCommand::Due { after, limit } => {
            put_after(out, after)?;
            put_due_limit(out, *limit)
        }
        StoreCommand::Fired {
            stamp,
            actor,
            name,
            moment,
        } => {
            put_stamp(out, stamp)?;
            put_actor(out, actor)?;
            put_record_name(out, name)?;
            put_moment(out, *moment)
        }
    }
}
