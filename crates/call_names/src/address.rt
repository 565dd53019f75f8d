// Writes addresses.
ghost use Rattle.std.specs.Prelude.{◌≡◌, ◌++◌, OnOk};
ghost use Rattle.call_names.specs.Texts.{ip_text, address_text};

use crate::pieces::{add_bytes, add_decimal};
use actor_names::Address;
use lists_and_limits::OutOfMemory;

// Appends the four bytes, the highest first.
#[tactic(auto, unfolding(crate::specs::Texts::ip_text))]
fn add_ip(into: &mut Vec<u8>, ip: u32) -> Result<(), OutOfMemory>
    ensures { OnOk result (into.new.items ≡ into.old.items ++ ip_text ip) }
{
    let ip = ip as u64;
    add_decimal(into, ip / 16_777_216 % 256)?;
    add_bytes(into, b".")?;
    add_decimal(into, ip / 65_536 % 256)?;
    add_bytes(into, b".")?;
    add_decimal(into, ip / 256 % 256)?;
    add_bytes(into, b".")?;
    add_decimal(into, ip % 256)
}

/// Appends an address as it is read, `A.B.C.D:PORT`.
#[tactic(auto, unfolding(crate::specs::Texts::address_text))]
pub fn add_address(into: &mut Vec<u8>, address: &Address) -> Result<(), OutOfMemory>
    ensures { OnOk result (into.new.items ≡ into.old.items ++ address_text address.now) }
{
    add_ip(into, address.ip)?;
    add_bytes(into, b":")?;
    add_decimal(into, address.port as u64)
}
