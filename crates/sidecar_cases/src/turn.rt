// A turn of an actor, begun and ended without a call.
ghost use Rattle.sidecar_node.specs.Nodes.{IsSeatsOf};

use crate::node::{clock, open_node};
use actor_names::{ChainId, read_key};
use case_texts::{add, add_escaped};
use part_core::PartReply;
use sidecar_node::{begin_turn, end_turn};
use std::alloc::Global;
use std::sync::Wait;

// The number of the call whose turn has begun, which is appended with the turn's chain.
fn add_begun(alloc: Global, reply: PartReply, text: &mut String) -> Option<u64> {
    let PartReply::Begun { call, chain } = reply else {
        return None;
    };
    add(format!(in alloc; "begun {call} ").ok()?.as_str(), text)?;
    add_chain(alloc, chain.as_ref(), text)?;
    Some(call)
}

fn add_chain(alloc: Global, chain: Option<&ChainId>, text: &mut String) -> Option<()> {
    match chain {
        Some(chain) => add_escaped(alloc, chain.as_slice(), text),
        None => add("without a chain", text),
    }
}

// Appends that a turn has ended, and which call's has begun with that.
fn add_ended(alloc: Global, reply: PartReply, text: &mut String) -> Option<()> {
    let PartReply::Ended { next } = reply else {
        return None;
    };
    add(
        format!(in alloc; "|ended, next {next:?}").ok()?.as_str(),
        text,
    )
}

/// How a turn of this actor begins and ends at a sidecar whose part is open.
pub(crate) fn turn<R: Wait>(rt: &R, alloc: Global, key: &[u8], text: &mut String) -> Option<()> {
    let key = read_key(alloc, key).ok()?;
    let mut clock = clock(alloc)?;
    let (node, mut seats) = open_node(rt, alloc, false)?;
    let begun = begin_turn(rt, alloc, &node, &mut seats, &key, None, None, &mut clock);
    let call = add_begun(alloc, begun.ok()?, text)?;
    let ended = end_turn(rt, &node, &mut seats, &key, call, &mut clock);
    add_ended(alloc, ended.ok()?, text)
}
