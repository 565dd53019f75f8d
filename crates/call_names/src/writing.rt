// Writes members and the names of forwarded calls.
ghost use Rattle.std.specs.Prelude.{◌≡◌, ◌++◌, OnOk};
ghost use Rattle.call_names.specs.Texts.{space_text, member_text, call_text};

use crate::name::CallName;
use crate::pieces::{add_bytes, add_decimal};
use actor_names::{Member, Space, default_space};
use lists_and_limits::OutOfMemory;

fn add_space(into: &mut Vec<u8>, space: &Space) -> Result<(), OutOfMemory>
    ensures { OnOk result (into.new.items ≡ into.old.items ++ space_text space.now) }
{
    if *space == default_space() {
        return Ok(());
    }
    add_bytes(into, space.as_slice())?;
    add_bytes(into, b":")
}

/// Appends a member as it is read, `NODE/BOOT` in the space `default` or else `SPACE:NODE/BOOT`.
pub fn add_member(into: &mut Vec<u8>, member: &Member) -> Result<(), OutOfMemory>
    ensures { OnOk result (into.new.items ≡ into.old.items ++ member_text member.now) }
{
    add_space(into, &member.space)?;
    add_bytes(into, member.node.as_slice())?;
    add_bytes(into, b"/")?;
    add_decimal(into, member.boot)
}

/// Appends the name of a call, `MEMBER PART NUMBER`.
pub fn add_call(into: &mut Vec<u8>, call: &CallName) -> Result<(), OutOfMemory>
    ensures { OnOk result (into.new.items ≡ into.old.items ++ call_text call.now) }
{
    add_member(into, &call.origin)?;
    add_bytes(into, b" ")?;
    add_decimal(into, call.part as u64)?;
    add_bytes(into, b" ")?;
    add_decimal(into, call.number)
}
