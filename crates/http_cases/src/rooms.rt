// Requests for a room, and what is told of it.
use crate::api::{joined, request};
use crate::parts::shown;
use actor_names::{Address, read_actor_type, read_address, read_app_id, read_member};
use case_texts::cut;
use place_table::{AckStage, ActorTypes, HostInfo};
use placement_node::{Awaited, AwaitedMembers, RoundSeen};
use placement_sessions::{Asked, room_asked, rounds_text, state_text};
use std::alloc::Global;

/// `METHOD|TARGET`
pub(crate) fn asked(alloc: Global, text: &str) -> Option<String> {
    let request = request(alloc, text)?;
    match &room_asked(&request) {
        Some(Asked::State { space }) => shown(alloc, space.as_slice()),
        Some(Asked::Rounds { space }) => {
            let text = joined(alloc, b"rounds ", space.as_slice())?;
            shown(alloc, text.as_slice())
        }
        None => String::from_str(alloc, "none").ok(),
    }
}

// `TYPE,TYPE ..`
fn types_of(alloc: Global, text: &str) -> Option<ActorTypes> {
    let mut kinds = Vec::new(alloc);
    if !text.is_empty() {
        for kind in text.split(',') {
            let kind = read_actor_type(alloc, kind.as_bytes()).ok()?;
            kinds.push(kind).ok()?;
        }
    }
    Some(ActorTypes::from_vec(kinds))
}

// `MEMBER|APP|TYPES`
fn host(alloc: Global, text: &str) -> Option<HostInfo> {
    let (member, rest) = cut(text, '|');
    let (app, types) = cut(rest, '|');
    let member = read_member(member.as_bytes()).ok()?;
    let app = read_app_id(alloc, app.as_bytes()).ok()?;
    let kinds = types_of(alloc, types)?;
    let address = Address { ip: 0, port: 80 };
    Some(HostInfo {
        member,
        app,
        address,
        kinds,
    })
}

/// `VERSION HOST ..`
pub(crate) fn state(alloc: Global, text: &str) -> Option<String> {
    let (version, rest) = cut(text, ' ');
    let version = version.parse::<u64>().ok()?;
    let mut hosts = Vec::new(alloc);
    if !rest.is_empty() {
        for part in rest.split(' ') {
            hosts.push(host(alloc, part)?).ok()?;
        }
    }
    let told = state_text(alloc, hosts.as_slice(), version).ok()?;
    shown(alloc, told.as_slice())
}

fn stage_of(word: &str) -> Option<AckStage> {
    match word {
        "lock" => Some(AckStage::Lock),
        "update" => Some(AckStage::Update),
        "unlock" => Some(AckStage::Unlock),
        _ => None,
    }
}

// `MEMBER|ADDRESS`
fn awaited(text: &str) -> Option<Awaited> {
    let (member, address) = cut(text, '|');
    let member = read_member(member.as_bytes()).ok()?;
    Some(Awaited {
        node: member.node,
        boot: member.boot,
        address: read_address(address.as_bytes()).ok()?,
    })
}

// `STAGE AWAITED ..`
fn round(alloc: Global, version: u64, text: &str) -> Option<RoundSeen> {
    let (stage, rest) = cut(text, ' ');
    let mut members = Vec::new(alloc);
    if !rest.is_empty() {
        for part in rest.split(' ') {
            members.push(awaited(part)?).ok()?;
        }
    }
    Some(RoundSeen {
        version,
        stage: stage_of(stage)?,
        awaited: AwaitedMembers::from_vec(members),
    })
}

/// `VERSION none` or `VERSION STAGE AWAITED ..`
pub(crate) fn rounds(alloc: Global, text: &str) -> Option<String> {
    let (version, rest) = cut(text, ' ');
    let version = version.parse::<u64>().ok()?;
    let round = match rest {
        "none" => None,
        _ => Some(round(alloc, version, rest)?),
    };
    let told = rounds_text(alloc, &round, version).ok()?;
    shown(alloc, told.as_slice())
}
