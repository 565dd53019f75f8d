// Parts of paths: every byte that isn't unreserved is escaped.
ghost use Rattle.std.specs.Prelude.{◌≡◌, ◌++◌, OnOk};
ghost use Rattle.app_texts.specs.Texts.{escaped, actor_path, method_path};

use crate::fields::add;
use actor_names::ActorKey;
use lists_and_limits::OutOfMemory;
use percent_encoding::{AsciiSet, NON_ALPHANUMERIC, ascii_set, percent_encode};
use std::alloc::Global;

// The bytes that a part of a path escapes.
const PART: AsciiSet = ascii_set!(
    NON_ALPHANUMERIC
        .remove(b'-')
        .remove(b'.')
        .remove(b'_')
        .remove(b'~')
);

#[tactic(auto, using(crate::proofs::Escapes::percent_encode_part))]
pub(crate) fn add_escaped(alloc: Global, part: &[u8], into: &mut Vec<u8>) -> Result<(), OutOfMemory>
    ensures { OnOk result (into.new.items ≡ into.old.items ++ escaped part.now) }
{
    let text = percent_encode(part, PART).into_cow(alloc)?;
    add(text.as_str().as_bytes(), into)
}

// Appends the path of an actor.
#[tactic(auto, unfolding(crate::specs::Texts::actor_path))]
pub(crate) fn add_actor_path(
    alloc: Global,
    actor: &ActorKey,
    into: &mut Vec<u8>,
) -> Result<(), OutOfMemory>
    ensures { OnOk result (into.new.items ≡ into.old.items ++ actor_path actor.now) }
{
    add(b"/actors/", into)?;
    add_escaped(alloc, actor.kind.as_slice(), into)?;
    add(b"/", into)?;
    add_escaped(alloc, actor.id.as_slice(), into)
}

// Appends the path of an actor and what stands before its method.
pub(crate) fn add_method_path(
    alloc: Global,
    actor: &ActorKey,
    method: &[u8],
    into: &mut Vec<u8>,
) -> Result<(), OutOfMemory>
    ensures { OnOk result (into.new.items ≡ into.old.items ++ method_path actor.now method.now) }
{
    add_actor_path(alloc, actor, into)?;
    add(b"/method/", into)?;
    add(method, into)
}
