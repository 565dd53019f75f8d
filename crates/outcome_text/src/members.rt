// Texts with the name of a member, of unknown length.
ghost use Rattle.std.specs.Prelude.{◌≡◌, ◌++◌, length, take, codes, OnOk, OnErr};
ghost use Rattle.outcome_text.specs.Outcomes.{space_text};

use crate::names::whole_or_none;
use actor_names::{Member, Space, default_space};
use std::alloc::AllocError;

/// Appends a space and a colon, as far as there is memory for them; nothing for the space `default`.
fn append_space(into: &mut Vec<u8>, space: &Space) -> Result<(), AllocError>
    ensures added { OnOk result (into.new.items ≡ into.old.items ++ space_text space.now) }
    ensures kept { take (length into.old.items) into.new.items ≡ into.old.items }
{
    if *space == default_space() {
        return Ok(());
    }
    into.extend_from_slice(space.as_slice())?;
    into.extend_from_slice(b":")
}

/// Appends a text, a member up to its slash and the rest, as far as there is memory for them.
fn append_member_pieces(
    into: &mut Vec<u8>,
    front: &[u8],
    member: &Member,
    back: &[u8],
) -> Result<(), AllocError>
    ensures added { OnOk result (into.new.items ≡ into.old.items ++ (front.now ++ space_text member.now.space ++ member.now.node ++ codes "/" ++ back.now)) }
    ensures kept { take (length into.old.items) into.new.items ≡ into.old.items }
{
    into.extend_from_slice(front)?;
    append_space(into, &member.space)?;
    into.extend_from_slice(member.node.as_slice())?;
    into.extend_from_slice(b"/")?;
    into.extend_from_slice(back)
}

/// Appends a text, a member up to its slash and the rest; if there is no memory for all of it, nothing.
pub(crate) fn append_member(
    into: &mut Vec<u8>,
    front: &[u8],
    member: &Member,
    back: &[u8],
) -> Result<(), AllocError>
    ensures added { OnOk result (into.new.items ≡ into.old.items ++ (front.now ++ space_text member.now.space ++ member.now.node ++ codes "/" ++ back.now)) }
    ensures unchanged { OnErr result (into.new.items ≡ into.old.items) }
{
    let start = into.len();
    let appended = append_member_pieces(into, front, member, back);
    whole_or_none(into, start, appended)
}
