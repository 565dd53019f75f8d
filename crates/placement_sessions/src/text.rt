// The body that tells of a room.
ghost use Rattle.std.specs.Prelude.{◌≡◌, ◌++◌, map, IfOk, OnOk};
ghost use Rattle.json_text.specs.Texts.{after_commas, in_brackets};
ghost use Rattle.placement_sessions.specs.States.{in_quotes, host_text, state_text};

use actor_names::ActorType;
use json_text::{Member, Piece, object_text};
use lists_and_limits::OutOfMemory;
use place_table::HostInfo;
use std::alloc::Global;

// Appends a name in quotes.
fn add_name(out: &mut Vec<u8>, name: &[u8]) -> Result<(), OutOfMemory>
    ensures { OnOk result (out.new.items ≡ out.old.items ++ in_quotes name.now) }
{
    out.push(b'"')?;
    out.extend_from_slice(name)?;
    out.push(b'"')?;
    Ok(())
}

/// A name in quotes.
pub(crate) fn quoted(alloc: Global, name: &[u8]) -> Result<Vec<u8>, OutOfMemory>
    ensures { IfOk result (λ text. text.items ≡ in_quotes name.now) }
{
    let mut text = Vec::new(alloc);
    add_name(&mut text, name)?;
    Ok(text)
}

// Appends each type with a comma before it.
fn add_more_kinds(out: &mut Vec<u8>, kinds: &[ActorType]) -> Result<(), OutOfMemory>
    ensures { OnOk result (out.new.items ≡ out.old.items ++ after_commas (map in_quotes kinds.now)) }
{
    for kind in kinds {
        out.push(b',')?;
        add_name(out, kind.as_slice())?;
    }
    Ok(())
}

// The list of the types.
fn kinds_text(alloc: Global, kinds: &[ActorType]) -> Result<Vec<u8>, OutOfMemory>
    ensures { IfOk result (λ text. text.items ≡ in_brackets (map in_quotes kinds.now)) }
{
    let mut text = Vec::new(alloc);
    text.push(b'[')?;
    if let Some((first, more)) = kinds.split_first() {
        add_name(&mut text, first.as_slice())?;
        add_more_kinds(&mut text, more)?;
    }
    text.push(b']')?;
    Ok(text)
}

// What is told of a host.
fn host_text(alloc: Global, host: &HostInfo) -> Result<Vec<u8>, OutOfMemory>
    ensures { IfOk result (λ text. text.items ≡ host_text host.now) }
{
    let kinds = kinds_text(alloc, host.kinds.as_slice())?;
    let app = quoted(alloc, host.app.as_slice())?;
    let node = quoted(alloc, host.member.node.as_slice())?;
    let members = [
        Member {
            key: "actorTypes",
            value: Piece::Kept(kinds.as_slice()),
        },
        Member {
            key: "appId",
            value: Piece::Kept(app.as_slice()),
        },
        Member {
            key: "name",
            value: Piece::Kept(node.as_slice()),
        },
    ];
    Ok(object_text(alloc, &members)?)
}

// Appends what is told of a host.
fn add_host(out: &mut Vec<u8>, host: &HostInfo) -> Result<(), OutOfMemory>
    ensures { OnOk result (out.new.items ≡ out.old.items ++ host_text host.now) }
{
    let text = host_text(*out.allocator(), host)?;
    out.extend_from_slice(text.as_slice())?;
    Ok(())
}

// Appends what is told of each host, with a comma before it.
fn add_more_hosts(out: &mut Vec<u8>, hosts: &[HostInfo]) -> Result<(), OutOfMemory>
    ensures { OnOk result (out.new.items ≡ out.old.items ++ after_commas (map host_text hosts.now)) }
{
    for host in hosts {
        out.push(b',')?;
        add_host(out, host)?;
    }
    Ok(())
}

// The list of what is told of the hosts.
fn hosts_text(alloc: Global, hosts: &[HostInfo]) -> Result<Vec<u8>, OutOfMemory>
    ensures { IfOk result (λ text. text.items ≡ in_brackets (map host_text hosts.now)) }
{
    let mut text = Vec::new(alloc);
    text.push(b'[')?;
    if let Some((first, more)) = hosts.split_first() {
        add_host(&mut text, first)?;
        add_more_hosts(&mut text, more)?;
    }
    text.push(b']')?;
    Ok(text)
}

/// What is told of a room with these hosts that last used this version, 0 before its first round.
pub fn state_text(alloc: Global, hosts: &[HostInfo], version: u64) -> Result<Vec<u8>, OutOfMemory>
    ensures { IfOk result (λ text. text.items ≡ state_text hosts.now version) }
{
    let list = hosts_text(alloc, hosts)?;
    let members = [
        Member {
            key: "hostList",
            value: Piece::Kept(list.as_slice()),
        },
        Member {
            key: "tableVersion",
            value: Piece::Natural(version),
        },
    ];
    Ok(object_text(alloc, &members)?)
}
