// Which commands have a frame: the names, texts and numbers of one fit their fields.
ghost use Rattle.std.specs.Prelude.{◌≡◌, OnOk};
ghost use Rattle.wire_fields.specs.Fields.{MaybeFits};
ghost use Rattle.wire_fields.specs.Parts.{counter, named, member, actor};
ghost use Rattle.wire_fields.specs.Records.{text, blob, due_key};
ghost use Rattle.frame_wire.specs.Frames.{payload};
ghost use Rattle.frame_wire.specs.Store.{CommandFits};
ghost use Rattle.frame_wire.specs.StoreParts.{stamp};

use crate::rows::{fits_moment, fits_ops, fits_reminder};
use actor_names::{ActorKey, MOST_BOOT, Member, Name, NameForm, ShortForm, ShortName};
use frame_wire::{Frame, MOST_DUE, Stamp, StoreCommand};
use reminder_rows::DueKey;

/// Some field doesn't fit.
#[derive(Clone, Copy)]
pub(crate) struct Unfit;

// A name that takes no memory.
#[tactic(auto, unfolding(actor_names::specs::Names::HasForm, wire_fields::specs::Fields::byte))]
fn fits_short<F: ShortForm>(name: &ShortName<F>) -> Result<(), Unfit>
    ensures { OnOk result ((named F.fault).Fits name.now) }
{
    if name.as_slice().len() < 256 {
        Ok(())
    } else {
        Err(Unfit)
    }
}

// A name.
#[tactic(auto, unfolding(actor_names::specs::Names::HasForm, wire_fields::specs::Fields::byte))]
fn fits_name<F: NameForm>(name: &Name<F>) -> Result<(), Unfit>
    ensures { OnOk result ((named F.fault).Fits name.now) }
{
    if name.as_slice().len() < 256 {
        Ok(())
    } else {
        Err(Unfit)
    }
}

#[tactic(auto, unfolding(wire_fields::specs::Parts::member, wire_fields::specs::Parts::node_place, wire_fields::specs::Parts::space_name, wire_fields::specs::Parts::node_name, wire_fields::specs::Parts::boot, wire_fields::specs::Fields::number64))]
fn fits_member(one: &Member) -> Result<(), Unfit>
    ensures { OnOk result (member.Fits one.now) }
{
    fits_short(&one.space)?;
    fits_short(&one.node)?;
    let boot = one.boot;
    if boot == 0 || boot > MOST_BOOT {
        return Err(Unfit);
    }
    Ok(())
}

#[tactic(auto, unfolding(frame_wire::specs::StoreParts::stamp, wire_fields::specs::Fields::byte, wire_fields::specs::Fields::number64))]
fn fits_stamp(one: &Stamp) -> Result<(), Unfit>
    ensures { OnOk result (stamp.Fits one.now) }
{
    let _part = one.part;
    let _number = one.number;
    fits_member(&one.member)
}

#[tactic(auto, unfolding(wire_fields::specs::Parts::actor, wire_fields::specs::Parts::space_name, wire_fields::specs::Parts::type_name, wire_fields::specs::Parts::id_name))]
fn fits_actor(one: &ActorKey) -> Result<(), Unfit>
    ensures { OnOk result (actor.Fits one.now) }
{
    fits_short(&one.space)?;
    fits_name(&one.kind)?;
    fits_name(&one.id)
}

#[tactic(auto, unfolding(wire_fields::specs::Records::due_key, wire_fields::specs::Parts::record_name))]
fn fits_due_key(one: &DueKey) -> Result<(), Unfit>
    ensures { OnOk result (due_key.Fits one.now) }
{
    fits_moment(one.moment);
    fits_actor(&one.actor)?;
    fits_name(&one.name)
}

fn fits_after(after: &Option<DueKey>) -> Result<(), Unfit>
    ensures { OnOk result (MaybeFits due_key.Fits after.now) }
{
    match after {
        None => Ok(()),
        Some(key) => fits_due_key(key),
    }
}

/// The text of a key.
#[tactic(auto, unfolding(wire_fields::specs::Records::text, wire_fields::specs::Fields::number16))]
pub(crate) fn fits_text(one: &str) -> Result<(), Unfit>
    ensures { OnOk result (text.Fits one.now) }
{
    if one.as_bytes().len() > 65_535 {
        return Err(Unfit);
    }
    Ok(())
}

/// Any bytes.
#[tactic(auto, unfolding(wire_fields::specs::Records::blob, wire_fields::specs::Fields::number32))]
pub(crate) fn fits_bytes(bytes: &[u8]) -> Result<(), Unfit>
    ensures { OnOk result (blob.Fits bytes.now) }
{
    if bytes.len() > 4_294_967_295 {
        return Err(Unfit);
    }
    Ok(())
}

#[tactic(auto, unfolding(wire_fields::specs::Parts::node_place, wire_fields::specs::Parts::space_name, wire_fields::specs::Parts::node_name, wire_fields::specs::Parts::record_name, frame_wire::specs::StoreParts::due_limit, wire_fields::specs::Fields::number16))]
fn fits_command(command: &StoreCommand) -> Result<(), Unfit>
    ensures { OnOk result (CommandFits command.now) }
{
    match command {
        StoreCommand::Boot { space, node } => {
            fits_short(space)?;
            fits_short(node)
        }
        StoreCommand::Tx { stamp, actor, ops } => {
            fits_stamp(stamp)?;
            fits_actor(actor)?;
            fits_ops(ops.as_slice())
        }
        StoreCommand::Get { actor, key } => {
            fits_actor(actor)?;
            fits_text(key.as_str())
        }
        StoreCommand::PutReminder {
            stamp,
            actor,
            name,
            reminder,
        } => {
            fits_stamp(stamp)?;
            fits_actor(actor)?;
            fits_name(name)?;
            fits_reminder(reminder)
        }
        StoreCommand::GetReminder { actor, name } => {
            fits_actor(actor)?;
            fits_name(name)
        }
        StoreCommand::DeleteReminder { stamp, actor, name } => {
            fits_stamp(stamp)?;
            fits_actor(actor)?;
            fits_name(name)
        }
        StoreCommand::Due { after, limit } => {
            let limit = *limit;
            if limit == 0 || limit > MOST_DUE {
                return Err(Unfit);
            }
            fits_after(after)
        }
        StoreCommand::Fired {
            stamp,
            actor,
            name,
            moment,
        } => {
            fits_stamp(stamp)?;
            fits_actor(actor)?;
            fits_name(name)?;
            fits_moment(*moment);
            Ok(())
        }
    }
}

// An epoch.
#[tactic(auto, unfolding(wire_fields::specs::Parts::counter, wire_fields::specs::Fields::number64))]
fn fits_epoch(epoch: u64) -> Result<(), Unfit>
    ensures { OnOk result (counter.Fits epoch) }
{
    if epoch > MOST_BOOT {
        return Err(Unfit);
    }
    Ok(())
}

/// A command's frame, with an epoch or without one, if its fields have the forms and ranges of the format. Names, texts and
/// moments always have them; a count, a length, a boot, an epoch or a number of seconds may not.
#[tactic(auto, unfolding(frame_wire::specs::Frames::payload))]
pub(crate) fn fits_frame(asked: &Frame) -> Result<(), Unfit>
    ensures { OnOk result (payload.Fits asked.now) }
{
    match asked {
        Frame::Command { command } => fits_command(command),
        Frame::FencedTx {
            epoch,
            stamp,
            actor,
            ops,
        } => {
            fits_epoch(*epoch)?;
            fits_stamp(stamp)?;
            fits_actor(actor)?;
            fits_ops(ops.as_slice())
        }
        _ => Err(Unfit),
    }
}
