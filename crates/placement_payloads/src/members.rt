// Members of a space that was named before: each is a node and a boot.
ghost use Rattle.std.specs.Prelude.{◌≡◌, ◌++◌, ◌<◌, ℕ, List, None, length, OnOk};
ghost use Rattle.wire_fields.specs.Fields.{many_at, spell_all, in_any_order, counted, number16, AllFit};
ghost use Rattle.wire_fields.specs.Gives.{Gives};
ghost use Rattle.placement_payloads.specs.Payloads.{local_place, local_member, member_local};

use actor_names::{Member, OutOfMemory, Space};
use member_roster::MemberList;
use std::alloc::Global;
use wire_fields::{Fault, boot_at, node_at, put_boot, put_node, put_u16, u16_at};

/// Reads a member of this space: node name, boot.
#[tactic(auto, unfolding(crate::specs::Payloads::local_member, crate::specs::Payloads::local_place))]
pub(crate) fn local_member_at(space: &Space, rest: &mut &[u8]) -> Result<Member, Fault>
    ensures { Gives (λ x. (x, rest.new.now)) result ((local_member space.now).at rest.old.now) }
{
    let node = node_at(rest)?;
    let boot = boot_at(rest)?;
    Ok(Member {
        space: *space,
        node,
        boot,
    })
}

fn member_list_at(
    alloc: Global,
    space: &Space,
    count: u16,
    rest: &mut &[u8],
) -> Result<Vec<Member>, Fault>
    ensures { Gives (λ x. (x.items, rest.new.now)) result (many_at (in_any_order (local_member space.now)) None count rest.old.now) }
{
    let mut members = Vec::new(alloc);
    for _ in 0..count {
        let member = local_member_at(space, rest)?;
        members.push(member)?;
    }
    Ok(members)
}

/// Reads members of this space behind their count of two bytes.
pub(crate) fn members_at(
    alloc: Global,
    space: &Space,
    rest: &mut &[u8],
) -> Result<MemberList, Fault>
    ensures { Gives (λ x. (x.members, rest.new.now)) result ((counted number16 (in_any_order (local_member space.now))).at rest.old.now) }
{
    let count = u16_at(rest)?;
    let members = member_list_at(alloc, space, count, rest)?;
    Ok(MemberList::from_vec(members))
}

/// Appends a member without its space.
#[tactic(auto, unfolding(crate::specs::Payloads::local_place))]
pub(crate) fn put_local_member(out: &mut Vec<u8>, one: &Member) -> Result<(), OutOfMemory>
    requires { local_place.Fits (member_local one.now) }
    ensures { OnOk result (out.new.items ≡ out.old.items ++ local_place.spell (member_local one.now)) }
{
    put_node(out, &one.node)?;
    put_boot(out, one.boot)
}

fn put_member_list(out: &mut Vec<u8>, members: &[Member]) -> Result<(), OutOfMemory>
    requires { (space : List ℕ) × AllFit (in_any_order (local_member space)) None members.now }
    ensures { OnOk result (out.new.items ≡ out.old.items ++ spell_all (λ m. local_place.spell (member_local m)) members.now) }
{
    for one in members {
        put_local_member(out, one)?;
    }
    Ok(())
}

/// Appends members, all of one space, behind their count of two bytes.
#[tactic(auto, unfolding(wire_fields::specs::Fields::number16))]
pub(crate) fn put_members(out: &mut Vec<u8>, members: &[Member]) -> Result<(), OutOfMemory>
    requires { (space : List ℕ) × (counted number16 (in_any_order (local_member space))).Fits members.now }
    ensures { OnOk result (out.new.items ≡ out.old.items ++ (number16.spell (length members.now) ++ spell_all (λ m. local_place.spell (member_local m)) members.now)) }
{
    put_u16(out, members.len() as u16)?;
    put_member_list(out, members)
}
