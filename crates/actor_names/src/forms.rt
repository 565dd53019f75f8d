// The forms of names, and their readers.
ghost use Rattle.std.specs.Prelude.{◌≡◌, None, IfOk, OnOk};
ghost use Rattle.actor_names.specs.Names.{node_fault, space_fault, app_id_fault, actor_type_fault, actor_id_fault, record_name_fault, chain_id_fault};
ghost use Rattle.actor_names.specs.Reads.{ReadsInMemory, ReadsInPlace};

use crate::byte_class::{ChainBytes, IdBytes, NodeBytes, TypeBytes, fault_in};
use crate::error::NameError;
use crate::name::{Name, NameForm};
use crate::short_name::{ShortForm, ShortName};
use std::alloc::Global;

/// The most bytes of a node.
pub const MOST_NODE_BYTES: usize = 64;

/// The form of nodes.
#[derive(Clone, Copy, Debug)]
pub struct NodeForm;

impl NameForm for NodeForm {
    ghost use Rattle.actor_names.specs.Names.{node_fault};

    ghost fault = { node_fault };

    fn fault(text: &[u8]) -> Option<NameError> {
        fault_in::<NodeBytes>(text, 0, MOST_NODE_BYTES)
    }
}

impl ShortForm for NodeForm {
    ghost use Rattle.actor_names.specs.Names.{is_node_byte};
    ghost use Rattle.actor_names.specs.NameLengths.{most-text_fault};

    ghost is_short = { most-text_fault is_node_byte 64 };
}

/// The name of a node: 1 to 64 lowercase letters, digits and `-`. Copies take no memory.
pub type Node = ShortName<NodeForm>;

/// Why a text isn't a node; None if it is one.
pub fn node_fault(text: &[u8]) -> Option<NameError>
    ensures { result ≡ node_fault text.now }
{
    NodeForm::fault(text)
}

/// Reads a node; takes no memory.
pub fn read_node(text: &[u8]) -> Result<Node, NameError>
    ensures value { IfOk result (λ name. name ≡ text.now) }
    ensures sound { OnOk result (node_fault text.now ≡ None) }
    ensures refused { ReadsInPlace (node_fault text.now) result }
{
    ShortName::read(text)
}

/// The most bytes of a space.
pub const MOST_SPACE_BYTES: usize = 64;

/// The form of spaces.
#[derive(Clone, Copy, Debug)]
pub struct SpaceForm;

impl NameForm for SpaceForm {
    ghost use Rattle.actor_names.specs.Names.{space_fault};

    ghost fault = { space_fault };

    fn fault(text: &[u8]) -> Option<NameError> {
        fault_in::<NodeBytes>(text, 0, MOST_SPACE_BYTES)
    }
}

impl ShortForm for SpaceForm {
    ghost use Rattle.actor_names.specs.Names.{is_node_byte};
    ghost use Rattle.actor_names.specs.NameLengths.{most-text_fault};

    ghost is_short = { most-text_fault is_node_byte 64 };
}

/// The name of a space, in which members and actors have names of their own: 1 to 64 lowercase letters, digits and
/// `-`. Copies take no memory.
pub type Space = ShortName<SpaceForm>;

/// Why a text isn't a space; None if it is one.
pub fn space_fault(text: &[u8]) -> Option<NameError>
    ensures { result ≡ space_fault text.now }
{
    SpaceForm::fault(text)
}

/// Reads a space; takes no memory.
pub fn read_space(text: &[u8]) -> Result<Space, NameError>
    ensures value { IfOk result (λ name. name ≡ text.now) }
    ensures sound { OnOk result (space_fault text.now ≡ None) }
    ensures refused { ReadsInPlace (space_fault text.now) result }
{
    ShortName::read(text)
}

/// The most bytes of an application id.
pub const MOST_APP_ID_BYTES: usize = 64;

/// The form of application ids.
#[derive(Debug)]
pub struct AppForm;

impl NameForm for AppForm {
    ghost use Rattle.actor_names.specs.Names.{app_id_fault};

    ghost fault = { app_id_fault };

    fn fault(text: &[u8]) -> Option<NameError> {
        fault_in::<NodeBytes>(text, 0, MOST_APP_ID_BYTES)
    }
}

/// The id of an application: 1 to 64 lowercase letters, digits and `-`.
pub type AppId = Name<AppForm>;

/// Why a text isn't an application id; None if it is one.
pub fn app_id_fault(text: &[u8]) -> Option<NameError>
    ensures { result ≡ app_id_fault text.now }
{
    AppForm::fault(text)
}

/// Reads an application id. A fault is reported before any memory is allocated.
pub fn read_app_id(alloc: Global, text: &[u8]) -> Result<AppId, NameError>
    ensures value { IfOk result (λ name. name ≡ text.now) }
    ensures sound { OnOk result (app_id_fault text.now ≡ None) }
    ensures refused { ReadsInMemory (app_id_fault text.now) result }
{
    Name::read(alloc, text)
}

/// The most bytes of an actor type.
pub const MOST_ACTOR_TYPE_BYTES: usize = 64;

/// The form of actor types.
#[derive(Debug)]
pub struct TypeForm;

impl NameForm for TypeForm {
    ghost use Rattle.actor_names.specs.Names.{actor_type_fault};

    ghost fault = { actor_type_fault };

    fn fault(text: &[u8]) -> Option<NameError> {
        fault_in::<TypeBytes>(text, 0, MOST_ACTOR_TYPE_BYTES)
    }
}

/// The type of an actor: 1 to 64 letters, digits, `-`, `_` and `.`.
pub type ActorType = Name<TypeForm>;

/// Why a text isn't an actor type; None if it is one.
pub fn actor_type_fault(text: &[u8]) -> Option<NameError>
    ensures { result ≡ actor_type_fault text.now }
{
    TypeForm::fault(text)
}

/// Reads an actor type. A fault is reported before any memory is allocated.
pub fn read_actor_type(alloc: Global, text: &[u8]) -> Result<ActorType, NameError>
    ensures value { IfOk result (λ name. name ≡ text.now) }
    ensures sound { OnOk result (actor_type_fault text.now ≡ None) }
    ensures refused { ReadsInMemory (actor_type_fault text.now) result }
{
    Name::read(alloc, text)
}

/// The most bytes of an actor id.
pub const MOST_ACTOR_ID_BYTES: usize = 128;

/// The form of actor ids.
#[derive(Debug)]
pub struct IdForm;

impl NameForm for IdForm {
    ghost use Rattle.actor_names.specs.Names.{actor_id_fault};

    ghost fault = { actor_id_fault };

    fn fault(text: &[u8]) -> Option<NameError> {
        fault_in::<IdBytes>(text, 0, MOST_ACTOR_ID_BYTES)
    }
}

/// The id of an actor among those of its type: 1 to 128 bytes from 0x21 to 0x7E except `/`.
pub type ActorId = Name<IdForm>;

/// Why a text isn't an actor id; None if it is one.
pub fn actor_id_fault(text: &[u8]) -> Option<NameError>
    ensures { result ≡ actor_id_fault text.now }
{
    IdForm::fault(text)
}

/// Reads an actor id. A fault is reported before any memory is allocated.
pub fn read_actor_id(alloc: Global, text: &[u8]) -> Result<ActorId, NameError>
    ensures value { IfOk result (λ name. name ≡ text.now) }
    ensures sound { OnOk result (actor_id_fault text.now ≡ None) }
    ensures refused { ReadsInMemory (actor_id_fault text.now) result }
{
    Name::read(alloc, text)
}

/// The most bytes of a record name.
pub const MOST_RECORD_NAME_BYTES: usize = 128;

/// The form of the names of records.
#[derive(Debug)]
pub struct RecordForm;

impl NameForm for RecordForm {
    ghost use Rattle.actor_names.specs.Names.{record_name_fault};

    ghost fault = { record_name_fault };

    fn fault(text: &[u8]) -> Option<NameError> {
        fault_in::<IdBytes>(text, 0, MOST_RECORD_NAME_BYTES)
    }
}

/// The name of a timer or reminder among those of its actor: 1 to 128 bytes from 0x21 to 0x7E except `/`.
pub type RecordName = Name<RecordForm>;

/// Why a text isn't a record name; None if it is one.
pub fn record_name_fault(text: &[u8]) -> Option<NameError>
    ensures { result ≡ record_name_fault text.now }
{
    RecordForm::fault(text)
}

/// Reads a record name. A fault is reported before any memory is allocated.
pub fn read_record_name(alloc: Global, text: &[u8]) -> Result<RecordName, NameError>
    ensures value { IfOk result (λ name. name ≡ text.now) }
    ensures sound { OnOk result (record_name_fault text.now ≡ None) }
    ensures refused { ReadsInMemory (record_name_fault text.now) result }
{
    Name::read(alloc, text)
}

/// The most bytes of a chain's identifier.
pub const MOST_CHAIN_ID_BYTES: usize = 128;

/// The form of the identifiers of reentrancy chains.
pub struct ChainForm;

impl NameForm for ChainForm {
    ghost use Rattle.actor_names.specs.Names.{chain_id_fault};

    ghost fault = { chain_id_fault };

    fn fault(text: &[u8]) -> Option<NameError> {
        fault_in::<ChainBytes>(text, 0, MOST_CHAIN_ID_BYTES)
    }
}

/// The identifier of a reentrancy chain, which the nested calls of one request share: 1 to 128 bytes from 0x21 to 0x7E.
pub type ChainId = Name<ChainForm>;

/// Why a text isn't a chain's identifier; None if it is one.
pub fn chain_id_fault(text: &[u8]) -> Option<NameError>
    ensures { result ≡ chain_id_fault text.now }
{
    ChainForm::fault(text)
}

/// Reads a chain's identifier. A fault is reported before any memory is allocated.
pub fn read_chain_id(alloc: Global, text: &[u8]) -> Result<ChainId, NameError>
    ensures value { IfOk result (λ name. name ≡ text.now) }
    ensures sound { OnOk result (chain_id_fault text.now ≡ None) }
    ensures refused { ReadsInMemory (chain_id_fault text.now) result }
{
    Name::read(alloc, text)
}
