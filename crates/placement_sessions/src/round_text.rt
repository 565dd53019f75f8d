// The body that tells of a room's round.
ghost use Rattle.std.specs.Prelude.{◌≡◌, ◌++◌, map, Some, IfOk, OnOk};
ghost use Rattle.call_names.specs.Texts.{address_text};
ghost use Rattle.json_text.specs.Texts.{after_commas, in_brackets};
ghost use Rattle.placement_sessions.specs.States.{awaited_text, in_quotes, round_text, rounds_text, stage_name};

use crate::text::quoted;
use actor_names::Address;
use call_names::add_address;
use json_text::{Member, Piece, object_text};
use lists_and_limits::OutOfMemory;
use place_table::AckStage;
use placement_node::{Awaited, RoundSeen};
use std::alloc::Global;

// An address in quotes, as `"127.0.0.1:5001"`.
fn quoted_address(alloc: Global, address: &Address) -> Result<Vec<u8>, OutOfMemory>
    ensures { IfOk result (λ text. text.items ≡ in_quotes (address_text address.now)) }
{
    let mut text = Vec::new(alloc);
    text.push(b'"')?;
    add_address(&mut text, address)?;
    text.push(b'"')?;
    Ok(text)
}

// What is told of a member that the round waits for.
fn awaited_text(alloc: Global, awaited: &Awaited) -> Result<Vec<u8>, OutOfMemory>
    ensures { IfOk result (λ text. text.items ≡ awaited_text awaited.now) }
{
    let address = quoted_address(alloc, &awaited.address)?;
    let node = quoted(alloc, awaited.node.as_slice())?;
    let members = [
        Member {
            key: "address",
            value: Piece::Kept(address.as_slice()),
        },
        Member {
            key: "boot",
            value: Piece::Natural(awaited.boot),
        },
        Member {
            key: "name",
            value: Piece::Kept(node.as_slice()),
        },
    ];
    Ok(object_text(alloc, &members)?)
}

// Appends what is told of a member.
fn add_awaited(out: &mut Vec<u8>, awaited: &Awaited) -> Result<(), OutOfMemory>
    ensures { OnOk result (out.new.items ≡ out.old.items ++ awaited_text awaited.now) }
{
    let text = awaited_text(*out.allocator(), awaited)?;
    out.extend_from_slice(text.as_slice())?;
    Ok(())
}

// Appends what is told of each member, with a comma before it.
fn add_more_awaited(out: &mut Vec<u8>, members: &[Awaited]) -> Result<(), OutOfMemory>
    ensures { OnOk result (out.new.items ≡ out.old.items ++ after_commas (map awaited_text members.now)) }
{
    for awaited in members {
        out.push(b',')?;
        add_awaited(out, awaited)?;
    }
    Ok(())
}

// The list of what is told of the members.
fn members_text(alloc: Global, members: &[Awaited]) -> Result<Vec<u8>, OutOfMemory>
    ensures { IfOk result (λ text. text.items ≡ in_brackets (map awaited_text members.now)) }
{
    let mut text = Vec::new(alloc);
    text.push(b'[')?;
    if let Some((first, more)) = members.split_first() {
        add_awaited(&mut text, first)?;
        add_more_awaited(&mut text, more)?;
    }
    text.push(b']')?;
    Ok(text)
}

fn stage_name(stage: AckStage) -> &'static [u8]
    ensures { result.now ≡ stage_name stage }
{
    match stage {
        AckStage::Lock => b"lock",
        AckStage::Update => b"update",
        AckStage::Unlock => b"unlock",
    }
}

// What is told of a round that runs.
fn running_text(alloc: Global, round: &RoundSeen) -> Result<Vec<u8>, OutOfMemory>
    ensures { IfOk result (λ text. text.items ≡ round_text (Some round.now)) }
{
    let stage = quoted(alloc, stage_name(round.stage))?;
    let waits = members_text(alloc, round.awaited.as_slice())?;
    let members = [
        Member {
            key: "stage",
            value: Piece::Kept(stage.as_slice()),
        },
        Member {
            key: "version",
            value: Piece::Natural(round.version),
        },
        Member {
            key: "waitsFor",
            value: Piece::Kept(waits.as_slice()),
        },
    ];
    Ok(object_text(alloc, &members)?)
}

// What is told of a round, or `null` if none runs.
fn round_text(alloc: Global, round: &Option<RoundSeen>) -> Result<Vec<u8>, OutOfMemory>
    ensures { IfOk result (λ text. text.items ≡ round_text round.now) }
{
    match round {
        Some(round) => running_text(alloc, round),
        None => Ok(Vec::from_slice(alloc, b"null")?),
    }
}

/// What is told of a room with this round that last used this version, 0 before its first round.
pub fn rounds_text(
    alloc: Global,
    round: &Option<RoundSeen>,
    version: u64,
) -> Result<Vec<u8>, OutOfMemory>
    ensures { IfOk result (λ text. text.items ≡ rounds_text round.now version) }
{
    let text = round_text(alloc, round)?;
    let members = [
        Member {
            key: "round",
            value: Piece::Kept(text.as_slice()),
        },
        Member {
            key: "tableVersion",
            value: Piece::Natural(version),
        },
    ];
    Ok(object_text(alloc, &members)?)
}
