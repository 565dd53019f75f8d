// Actors and places in the order of reminders, read from the start of some bytes and appended to others.
ghost use Rattle.std.specs.Prelude.{◌≡◌, ◌++◌, OnOk};
ghost use Rattle.wire_fields.specs.Gives.{Gives};
ghost use Rattle.wire_fields.specs.Parts.{actor};
ghost use Rattle.wire_fields.specs.Records.{due_key};

use crate::fault::Fault;
use crate::names::{
    id_at, put_id, put_record_name, put_space, put_type, record_name_at, space_at, type_at,
};
use crate::schedules::{moment_at, put_moment};
use actor_names::{ActorKey, OutOfMemory};
use reminder_rows::DueKey;
use std::alloc::Global;

/// Reads an actor: space name, type name, id name.
#[tactic(auto, unfolding(crate::specs::Parts::actor))]
pub fn actor_at(alloc: Global, rest: &mut &[u8]) -> Result<ActorKey, Fault>
    ensures { Gives (λ x. (x, rest.new.now)) result (actor.at rest.old.now) }
{
    let space = space_at(rest)?;
    let kind = type_at(alloc, rest)?;
    let id = id_at(alloc, rest)?;
    Ok(ActorKey { space, kind, id })
}

/// Appends an actor.
#[tactic(auto, unfolding(crate::specs::Parts::actor))]
pub fn put_actor(out: &mut Vec<u8>, one: &ActorKey) -> Result<(), OutOfMemory>
    requires { actor.Fits one.now }
    ensures { OnOk result (out.new.items ≡ out.old.items ++ actor.spell one.now) }
{
    put_space(out, &one.space)?;
    put_type(out, &one.kind)?;
    put_id(out, &one.id)
}

/// Reads a place in the order of reminders: moment, actor, name.
#[tactic(auto, unfolding(crate::specs::Records::due_key))]
pub fn due_key_at(alloc: Global, rest: &mut &[u8]) -> Result<DueKey, Fault>
    ensures { Gives (λ x. (x, rest.new.now)) result (due_key.at rest.old.now) }
{
    let moment = moment_at(rest)?;
    let actor = actor_at(alloc, rest)?;
    let name = record_name_at(alloc, rest)?;
    Ok(DueKey {
        moment,
        actor,
        name,
    })
}

/// Appends a place in the order of reminders.
#[tactic(auto, unfolding(crate::specs::Records::due_key))]
pub fn put_due_key(out: &mut Vec<u8>, one: &DueKey) -> Result<(), OutOfMemory>
    requires { due_key.Fits one.now }
    ensures { OnOk result (out.new.items ≡ out.old.items ++ due_key.spell one.now) }
{
    put_moment(out, one.moment)?;
    put_actor(out, &one.actor)?;
    put_record_name(out, &one.name)
}
