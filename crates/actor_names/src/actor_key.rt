// Actor keys: the space, the type and the id of one actor, and their text `TYPE/ID` or `SPACE:TYPE/ID`.
ghost use Rattle.std.specs.Prelude.{◌≡◌, ◌+◌, ◌<◌, ◌≤◌, Some, None, length, drop, option_map, IfOk, OnOk};
ghost use Rattle.actor_names.specs.Names.{local_key_fault, key_fault, actor_id_fault, before_slash, after_slash, second_fault, placed_from, space_in, local_in};
ghost use Rattle.actor_names.specs.Reads.{ReadsInMemory};

use crate::byte_class::{IdBytes, TypeBytes, bad_place, fault_in};
use crate::error::NameError;
use crate::forms::{
    ActorId, ActorType, MOST_ACTOR_ID_BYTES, MOST_ACTOR_TYPE_BYTES, Space, actor_type_fault,
    read_space, space_fault,
};
use crate::slash::{first_piece, second_piece, slash_place};
use crate::spaced::{default_space, space_end};
use lists_and_limits::OutOfMemory;
use std::alloc::Global;

/// The name of an actor: its space, its type, and its id among the actors of that type in that space.
#[derive(Debug, Drop, PartialEq, Eq, PartialOrd, Ord)]
pub struct ActorKey {
    /// The space.
    pub space: Space,
    /// The type.
    pub kind: ActorType,
    /// The id.
    pub id: ActorId,
}

impl ActorKey {
    /// An equal key.
    pub fn copy(&self, alloc: Global) -> Result<ActorKey, OutOfMemory>
        ensures { IfOk result (λ copy. copy ≡ self.now) }
    {
        let kind = self.kind.copy(alloc)?;
        let id = self.id.copy(alloc)?;
        Ok(ActorKey {
            space: self.space,
            kind,
            id,
        })
    }
}

/// The bytes before the first `/`: the type, if the text is a key without a space. The whole text if it has no `/`.
pub fn key_kind(text: &[u8]) -> &[u8]
    ensures { result.now ≡ before_slash text.now }
{
    first_piece(text)
}

// The fault of what follows the type, which ends at `end`.
fn id_part_fault(text: &[u8], end: usize) -> Option<NameError>
    requires { end ≡ length (before_slash text.now) }
    ensures { result ≡ second_fault actor_id_fault text.now (after_slash text.now) }
{
    let n = text.len();
    if end >= n {
        return Some(NameError::BadByte { at: n as u64 });
    }
    fault_in::<IdBytes>(text, end + 1, MOST_ACTOR_ID_BYTES)
}

/// Why a text isn't a key without a space, `TYPE/ID`; None if it is one. A key is scanned only once.
pub fn local_key_fault(text: &[u8]) -> Option<NameError>
    ensures { result ≡ local_key_fault text.now }
{
    if let Some(end) = bad_place::<TypeBytes>(text, 0)
        && text[end] == b'/'
        && 0 < end
        && end <= MOST_ACTOR_TYPE_BYTES
    {
        return id_part_fault(text, end);
    }
    match actor_type_fault(key_kind(text)) {
        Some(fault) => Some(fault),
        None => id_part_fault(text, slash_place(text)),
    }
}

/// Reads the key of an actor in the given space from a text without the space, `TYPE/ID`. A fault is reported before
/// any memory is allocated.
pub fn read_local_key(alloc: Global, space: &Space, text: &[u8]) -> Result<ActorKey, NameError>
    ensures space { IfOk result (λ key. key.space ≡ space.now) }
    ensures kind { IfOk result (λ key. key.kind ≡ before_slash text.now) }
    ensures id { IfOk result (λ key. Some key.id ≡ after_slash text.now) }
    ensures sound { OnOk result (local_key_fault text.now ≡ None) }
    ensures refused { ReadsInMemory (local_key_fault text.now) result }
{
    match local_key_fault(text) {
        Some(fault) => Err(fault),
        None => {
            let kind = ActorType::from_bytes(alloc, key_kind(text))?;
            let id = ActorId::from_bytes(alloc, second_piece(text))?;
            Ok(ActorKey {
                space: *space,
                kind,
                id,
            })
        }
    }
}

// The fault of the key after a space that ends at `end`; its place is counted in the whole text.
fn behind_space_fault(text: &[u8], end: usize) -> Option<NameError>
    requires { end < length text.now }
    ensures { result ≡ option_map (placed_from (end + 1)) (local_key_fault (drop (end + 1) text.now)) }
{
    match local_key_fault(&text[end + 1..]) {
        Some(NameError::BadByte { at }) => Some(NameError::BadByte {
            at: end as u64 + 1 + at,
        }),
        other => other,
    }
}

/// Why a text isn't a key, `TYPE/ID` or `SPACE:TYPE/ID`; None if it is one. A colon ends a space only before the
/// first `/`, since an id may have colons.
pub fn key_fault(text: &[u8]) -> Option<NameError>
    ensures { result ≡ key_fault text.now }
{
    match space_end(text) {
        None => local_key_fault(text),
        Some(end) => match space_fault(&text[..end]) {
            Some(fault) => Some(fault),
            None => behind_space_fault(text, end),
        },
    }
}

/// Reads an actor key, `TYPE/ID` in the space `default` or `SPACE:TYPE/ID`. A fault is reported before any memory
/// is allocated.
pub fn read_key(alloc: Global, text: &[u8]) -> Result<ActorKey, NameError>
    ensures space { IfOk result (λ key. key.space ≡ space_in text.now) }
    ensures kind { IfOk result (λ key. key.kind ≡ before_slash (local_in text.now)) }
    ensures id { IfOk result (λ key. Some key.id ≡ after_slash (local_in text.now)) }
    ensures sound { OnOk result (key_fault text.now ≡ None) }
    ensures refused { ReadsInMemory (key_fault text.now) result }
{
    match space_end(text) {
        None => read_local_key(alloc, &default_space(), text),
        Some(end) => match read_space(&text[..end]) {
            Err(fault) => Err(fault),
            Ok(space) => match behind_space_fault(text, end) {
                Some(fault) => Err(fault),
                None => read_local_key(alloc, &space, &text[end + 1..]),
            },
        },
    }
}
