// Names, read from the start of some bytes and appended to others, each behind its length of one byte.
ghost use Rattle.std.specs.Prelude.{◌≡◌, ◌++◌, OnOk};
ghost use Rattle.wire_fields.specs.Gives.{Gives};
ghost use Rattle.wire_fields.specs.Parts.{space_name, node_name, app_name, type_name, id_name, record_name};

use crate::fault::{Fault, name_fault};
use crate::numbers::{put_short_bytes, short_bytes_at};
use actor_names::{
    ActorId, ActorType, AppId, Node, OutOfMemory, RecordName, Space, read_actor_id,
    read_actor_type, read_app_id, read_node, read_record_name, read_space,
};
use std::alloc::Global;

/// Reads a space, behind its length of one byte.
#[tactic(auto, unfolding(crate::specs::Parts::space_name))]
pub fn space_at(rest: &mut &[u8]) -> Result<Space, Fault>
    ensures { Gives (λ x. (x, rest.new.now)) result (space_name.at rest.old.now) }
{
    let left = rest.len();
    let name = short_bytes_at(rest)?;
    match read_space(name) {
        Ok(name) => Ok(name),
        Err(_) => Err(Fault::Field { left }),
    }
}

/// Reads a node, behind its length of one byte.
#[tactic(auto, unfolding(crate::specs::Parts::node_name))]
pub fn node_at(rest: &mut &[u8]) -> Result<Node, Fault>
    ensures { Gives (λ x. (x, rest.new.now)) result (node_name.at rest.old.now) }
{
    let left = rest.len();
    let name = short_bytes_at(rest)?;
    match read_node(name) {
        Ok(name) => Ok(name),
        Err(_) => Err(Fault::Field { left }),
    }
}

/// Reads an application id, behind its length of one byte.
#[tactic(auto, unfolding(crate::specs::Parts::app_name))]
pub fn app_at(alloc: Global, rest: &mut &[u8]) -> Result<AppId, Fault>
    ensures { Gives (λ x. (x, rest.new.now)) result (app_name.at rest.old.now) }
{
    let left = rest.len();
    let name = short_bytes_at(rest)?;
    match read_app_id(alloc, name) {
        Ok(name) => Ok(name),
        Err(error) => Err(name_fault(error, left)),
    }
}

/// Reads an actor type, behind its length of one byte.
#[tactic(auto, unfolding(crate::specs::Parts::type_name))]
pub fn type_at(alloc: Global, rest: &mut &[u8]) -> Result<ActorType, Fault>
    ensures { Gives (λ x. (x, rest.new.now)) result (type_name.at rest.old.now) }
{
    let left = rest.len();
    let name = short_bytes_at(rest)?;
    match read_actor_type(alloc, name) {
        Ok(name) => Ok(name),
        Err(error) => Err(name_fault(error, left)),
    }
}

/// Reads an actor id, behind its length of one byte.
#[tactic(auto, unfolding(crate::specs::Parts::id_name))]
pub fn id_at(alloc: Global, rest: &mut &[u8]) -> Result<ActorId, Fault>
    ensures { Gives (λ x. (x, rest.new.now)) result (id_name.at rest.old.now) }
{
    let left = rest.len();
    let name = short_bytes_at(rest)?;
    match read_actor_id(alloc, name) {
        Ok(name) => Ok(name),
        Err(error) => Err(name_fault(error, left)),
    }
}

/// Reads a name of a record, behind its length of one byte.
#[tactic(auto, unfolding(crate::specs::Parts::record_name))]
pub fn record_name_at(alloc: Global, rest: &mut &[u8]) -> Result<RecordName, Fault>
    ensures { Gives (λ x. (x, rest.new.now)) result (record_name.at rest.old.now) }
{
    let left = rest.len();
    let name = short_bytes_at(rest)?;
    match read_record_name(alloc, name) {
        Ok(name) => Ok(name),
        Err(error) => Err(name_fault(error, left)),
    }
}

/// Appends a space, behind its length of one byte.
#[tactic(auto, unfolding(crate::specs::Parts::space_name))]
pub fn put_space(out: &mut Vec<u8>, name: &Space) -> Result<(), OutOfMemory>
    requires { space_name.Fits name.now }
    ensures { OnOk result (out.new.items ≡ out.old.items ++ space_name.spell name.now) }
{
    put_short_bytes(out, name.as_slice())
}

/// Appends a node, behind its length of one byte.
#[tactic(auto, unfolding(crate::specs::Parts::node_name))]
pub fn put_node(out: &mut Vec<u8>, name: &Node) -> Result<(), OutOfMemory>
    requires { node_name.Fits name.now }
    ensures { OnOk result (out.new.items ≡ out.old.items ++ node_name.spell name.now) }
{
    put_short_bytes(out, name.as_slice())
}

/// Appends an application id, behind its length of one byte.
#[tactic(auto, unfolding(crate::specs::Parts::app_name))]
pub fn put_app(out: &mut Vec<u8>, name: &AppId) -> Result<(), OutOfMemory>
    requires { app_name.Fits name.now }
    ensures { OnOk result (out.new.items ≡ out.old.items ++ app_name.spell name.now) }
{
    put_short_bytes(out, name.as_slice())
}

/// Appends an actor type, behind its length of one byte.
#[tactic(auto, unfolding(crate::specs::Parts::type_name))]
pub fn put_type(out: &mut Vec<u8>, name: &ActorType) -> Result<(), OutOfMemory>
    requires { type_name.Fits name.now }
    ensures { OnOk result (out.new.items ≡ out.old.items ++ type_name.spell name.now) }
{
    put_short_bytes(out, name.as_slice())
}

/// Appends an actor id, behind its length of one byte.
#[tactic(auto, unfolding(crate::specs::Parts::id_name))]
pub fn put_id(out: &mut Vec<u8>, name: &ActorId) -> Result<(), OutOfMemory>
    requires { id_name.Fits name.now }
    ensures { OnOk result (out.new.items ≡ out.old.items ++ id_name.spell name.now) }
{
    put_short_bytes(out, name.as_slice())
}

/// Appends a name of a record, behind its length of one byte.
#[tactic(auto, unfolding(crate::specs::Parts::record_name))]
pub fn put_record_name(out: &mut Vec<u8>, name: &RecordName) -> Result<(), OutOfMemory>
    requires { record_name.Fits name.now }
    ensures { OnOk result (out.new.items ≡ out.old.items ++ record_name.spell name.now) }
{
    put_short_bytes(out, name.as_slice())
}
