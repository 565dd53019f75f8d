// Members and hosts, read from the start of some bytes and appended to others.
ghost use Rattle.std.specs.Prelude.{◌≡◌, ◌++◌, None, OnOk};
ghost use Rattle.wire_fields.specs.Fields.{many_at, spell_all, in_any_order, AllFit};
ghost use Rattle.wire_fields.specs.Gives.{Gives};
ghost use Rattle.wire_fields.specs.Parts.{node_place, member, type_name, types, host, place_follows, member_after, host_after, host_behind, hosts, stage};

use crate::fault::Fault;
use crate::names::{app_at, node_at, put_app, put_node, put_space, put_type, space_at, type_at};
use crate::numbers::{byte_at, put_byte, put_tag, put_u16, put_u32, u16_at, u32_at};
use crate::ranges::{boot_at, put_boot};
use actor_names::{ActorType, Address, Member, Node, OutOfMemory, Space};
use place_table::{AckStage, ActorTypes, HostInfo, MOST_HOSTS, MOST_TYPES};
use std::alloc::Global;

/// Reads a node of a space: space name, node name.
#[tactic(auto, unfolding(crate::specs::Parts::node_place))]
pub fn node_place_at(rest: &mut &[u8]) -> Result<(Space, Node), Fault>
    ensures { Gives (λ x. ((x.0, x.1), rest.new.now)) result (node_place.at rest.old.now) }
{
    let space = space_at(rest)?;
    let node = node_at(rest)?;
    Ok((space, node))
}

/// Reads a member: space name, node name, boot.
#[tactic(auto, unfolding(crate::specs::Parts::member))]
pub fn member_at(rest: &mut &[u8]) -> Result<Member, Fault>
    ensures { Gives (λ x. (x, rest.new.now)) result (member.at rest.old.now) }
{
    let (space, node) = node_place_at(rest)?;
    let boot = boot_at(rest)?;
    Ok(Member { space, node, boot })
}

fn type_list_at(alloc: Global, count: u8, rest: &mut &[u8]) -> Result<Vec<ActorType>, Fault>
    ensures { Gives (λ x. (x.items, rest.new.now)) result (many_at (in_any_order type_name) None count rest.old.now) }
{
    let mut types = Vec::new(alloc);
    for _ in 0..count {
        let kind = type_at(alloc, rest)?;
        types.push(kind)?;
    }
    Ok(types)
}

/// Reads at most 32 types, in any order, behind their count of one byte.
#[tactic(auto, unfolding(crate::specs::Parts::types))]
pub fn types_at(alloc: Global, rest: &mut &[u8]) -> Result<ActorTypes, Fault>
    ensures { Gives (λ x. (x, rest.new.now)) result (types.at rest.old.now) }
{
    let left = rest.len();
    let count = byte_at(rest)?;
    if count as usize > MOST_TYPES {
        return Err(Fault::Field { left });
    }
    let items = type_list_at(alloc, count, rest)?;
    Ok(ActorTypes::from_vec(items))
}

/// Reads a host: member, application id, address, and at most 32 types behind their count of one byte.
#[tactic(auto, unfolding(crate::specs::Parts::host, crate::specs::Parts::host_app))]
pub fn host_at(alloc: Global, rest: &mut &[u8]) -> Result<HostInfo, Fault>
    ensures { Gives (λ x. (x, rest.new.now)) result (host.at rest.old.now) }
{
    let member = member_at(rest)?;
    let app = app_at(alloc, rest)?;
    let ip = u32_at(rest)?;
    let port = u16_at(rest)?;
    let kinds = types_at(alloc, rest)?;
    Ok(HostInfo {
        member,
        app,
        address: Address { ip, port },
        kinds,
    })
}

// Whether a node may follow the member before it: it is of the same space, and comes later.
fn follows(before: Option<Member>, space: &Space, node: &Node) -> bool
    ensures { result ≡ place_follows before (space.now, node.now) }
{
    match before {
        None => true,
        Some(last) => last.node < *node && last.space == *space,
    }
}

// A member behind another one. The order is tested as soon as the node is read.
#[tactic(auto, unfolding(crate::specs::Parts::member_after))]
fn member_after_at(before: Option<Member>, rest: &mut &[u8]) -> Result<Member, Fault>
    ensures { Gives (λ x. (x, rest.new.now)) result ((member_after before).at rest.old.now) }
{
    let left = rest.len();
    let (space, node) = node_place_at(rest)?;
    if !follows(before, &space, &node) {
        return Err(Fault::Field { left });
    }
    let boot = boot_at(rest)?;
    Ok(Member { space, node, boot })
}

// A host behind another one.
#[tactic(auto, unfolding(crate::specs::Parts::host_after, crate::specs::Parts::host_app))]
fn host_after_at(alloc: Global, before: Option<Member>, rest: &mut &[u8]) -> Result<HostInfo, Fault>
    ensures { Gives (λ x. (x, rest.new.now)) result ((host_after before).at rest.old.now) }
{
    let member = member_after_at(before, rest)?;
    let app = app_at(alloc, rest)?;
    let ip = u32_at(rest)?;
    let port = u16_at(rest)?;
    let kinds = types_at(alloc, rest)?;
    Ok(HostInfo {
        member,
        app,
        address: Address { ip, port },
        kinds,
    })
}

fn host_list_at(alloc: Global, count: u16, rest: &mut &[u8]) -> Result<Vec<HostInfo>, Fault>
    ensures { Gives (λ x. (x.items, rest.new.now)) result (many_at host_behind None count rest.old.now) }
{
    let mut hosts = Vec::new(alloc);
    let mut before = None;
    for _ in 0..count {
        let host = host_after_at(alloc, before, rest)?;
        before = Some(host.member);
        hosts.push(host)?;
    }
    Ok(hosts)
}

/// Reads at most 256 hosts behind their count of two bytes: of one space, in byte order of their nodes, no node twice.
#[tactic(auto, unfolding(crate::specs::Parts::hosts))]
pub fn hosts_at(alloc: Global, rest: &mut &[u8]) -> Result<Vec<HostInfo>, Fault>
    ensures { Gives (λ x. (x.items, rest.new.now)) result (hosts.at rest.old.now) }
{
    let left = rest.len();
    let count = u16_at(rest)?;
    if count as usize > MOST_HOSTS {
        return Err(Fault::Field { left });
    }
    host_list_at(alloc, count, rest)
}

/// Reads the stage of a round: 1 lock, 2 update, 3 unlock.
#[tactic(auto, unfolding(crate::specs::Parts::stage))]
pub fn stage_at(rest: &mut &[u8]) -> Result<AckStage, Fault>
    ensures { Gives (λ x. (x, rest.new.now)) result (stage.at rest.old.now) }
{
    let (stage, others) = match *rest {
        [1, others @ ..] => (AckStage::Lock, others),
        [2, others @ ..] => (AckStage::Update, others),
        [3, others @ ..] => (AckStage::Unlock, others),
        _ => return Err(Fault::Field { left: rest.len() }),
    };
    *rest = others;
    Ok(stage)
}

/// Appends a node of a space.
#[tactic(auto, unfolding(crate::specs::Parts::node_place))]
pub fn put_node_place(out: &mut Vec<u8>, space: &Space, node: &Node) -> Result<(), OutOfMemory>
    requires { node_place.Fits (space.now, node.now) }
    ensures { OnOk result (out.new.items ≡ out.old.items ++ node_place.spell (space.now, node.now)) }
{
    put_space(out, space)?;
    put_node(out, node)
}

/// Appends a member.
#[tactic(auto, unfolding(crate::specs::Parts::member))]
pub fn put_member(out: &mut Vec<u8>, one: &Member) -> Result<(), OutOfMemory>
    requires { member.Fits one.now }
    ensures { OnOk result (out.new.items ≡ out.old.items ++ member.spell one.now) }
{
    put_node_place(out, &one.space, &one.node)?;
    put_boot(out, one.boot)
}

fn put_type_list(out: &mut Vec<u8>, types: &[ActorType]) -> Result<(), OutOfMemory>
    requires { AllFit (in_any_order type_name) None types.now }
    ensures { OnOk result (out.new.items ≡ out.old.items ++ spell_all type_name.spell types.now) }
{
    for kind in types {
        put_type(out, kind)?;
    }
    Ok(())
}

/// Appends types behind their count of one byte.
#[tactic(auto, unfolding(crate::specs::Parts::types, crate::specs::Fields::byte))]
pub fn put_types(out: &mut Vec<u8>, kinds: &ActorTypes) -> Result<(), OutOfMemory>
    requires { types.Fits kinds.now }
    ensures { OnOk result (out.new.items ≡ out.old.items ++ types.spell kinds.now) }
{
    let kinds = kinds.as_slice();
    put_byte(out, kinds.len() as u8)?;
    put_type_list(out, kinds)
}

/// Appends a host.
#[tactic(auto, unfolding(crate::specs::Parts::host, crate::specs::Parts::host_app))]
pub fn put_host(out: &mut Vec<u8>, one: &HostInfo) -> Result<(), OutOfMemory>
    requires { host.Fits one.now }
    ensures { OnOk result (out.new.items ≡ out.old.items ++ host.spell one.now) }
{
    put_member(out, &one.member)?;
    put_app(out, &one.app)?;
    put_u32(out, one.address.ip)?;
    put_u16(out, one.address.port)?;
    put_types(out, &one.kinds)
}

fn put_host_list(out: &mut Vec<u8>, hosts: &[HostInfo]) -> Result<(), OutOfMemory>
    requires { AllFit host_behind None hosts.now }
    ensures { OnOk result (out.new.items ≡ out.old.items ++ spell_all (host_behind None).spell hosts.now) }
{
    for host in hosts {
        put_host(out, host)?;
    }
    Ok(())
}

/// Appends at most 256 hosts behind their count of two bytes.
#[tactic(auto, unfolding(crate::specs::Parts::hosts, crate::specs::Fields::number16))]
pub fn put_hosts(out: &mut Vec<u8>, all: &[HostInfo]) -> Result<(), OutOfMemory>
    requires { hosts.Fits all.now }
    ensures { OnOk result (out.new.items ≡ out.old.items ++ hosts.spell all.now) }
{
    put_u16(out, all.len() as u16)?;
    put_host_list(out, all)
}

/// Appends the stage of a round.
#[tactic(auto, unfolding(crate::specs::Parts::stage))]
pub fn put_stage(out: &mut Vec<u8>, one: AckStage) -> Result<(), OutOfMemory>
    ensures { OnOk result (out.new.items ≡ out.old.items ++ stage.spell one) }
{
    let tag = match one {
        AckStage::Lock => 1,
        AckStage::Update => 2,
        AckStage::Unlock => 3,
    };
    put_tag(out, tag)
}
