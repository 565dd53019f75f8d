// How a peer is told the owner of an actor.
ghost use Rattle.std.specs.Prelude.{◌≡◌, IfOk};
ghost use Rattle.actors_api.specs.Owners.{owner_text};

use call_names::{add_address, add_decimal, add_member};
use lists_and_limits::OutOfMemory;
use place_table::HostInfo;
use std::alloc::Global;

/// The version of a table, and a host by its member, application and address.
pub(crate) fn owner_text(
    alloc: Global,
    version: u64,
    owner: &HostInfo,
) -> Result<Vec<u8>, OutOfMemory>
    ensures { IfOk result (λ text. text.items ≡ owner_text version owner.now) }
{
    let mut text = Vec::new(alloc);
    add_decimal(&mut text, version)?;
    text.push(b' ')?;
    add_member(&mut text, &owner.member)?;
    text.push(b' ')?;
    text.extend_from_slice(owner.app.as_slice())?;
    text.push(b' ')?;
    add_address(&mut text, &owner.address)?;
    Ok(text)
}
