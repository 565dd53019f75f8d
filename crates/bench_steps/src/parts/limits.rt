// A part with as many actors as it may have, each with one call, and a table of many hosts and types.
use crate::parts::actors::{key_of, open_part, table_for, table_of};
use crate::parts::tables::find_owners;
use part_core::{Part, PartReply};
use part_model::PartEvent;
use std::alloc::Global;

// One call of each actor begins or waits.
fn ask_each(alloc: Global, part: &mut Part, actors: u32) -> Option<()> {
    for n in 0..actors {
        let ask = PartEvent::Ask {
            key: key_of(alloc, n)?,
            chain: None,
            now: 20,
        };
        let (PartReply::Begun { .. } | PartReply::Waits { .. }) = part.step(ask) else {
            return None;
        };
    }
    Some(())
}

// How many waiting calls begin as a locked part opens at version 2.
fn begin_all(alloc: Global, part: &mut Part) -> Option<u32> {
    let table = table_of(alloc, 2)?;
    let _updated = part.step(PartEvent::Update { table, now: 30 });
    match part.step(PartEvent::Unlock { version: 2 }) {
        PartReply::Opened { begun, .. } => Some(begun),
        _ => None,
    }
}

// How many turns a Tick ends, a long time after the table of version 3 gave all actors to another member.
fn end_all(alloc: Global, part: &mut Part) -> Option<u32> {
    let table = table_for(alloc, b"b/1", 3)?;
    let _locked = part.step(PartEvent::Lock { version: 3 });
    let _updated = part.step(PartEvent::Update { table, now: 50 });
    match part.step(PartEvent::Tick { now: 1_000_000_000 }) {
        PartReply::Ticked { ended, .. } => Some(ended),
        _ => None,
    }
}

// Whether a StopPart ends an open turn of each actor.
fn stops_all(alloc: Global, actors: u32) -> Option<bool> {
    let mut part = open_part(alloc)?;
    ask_each(alloc, &mut part, actors)?;
    let PartReply::StoppedNow { .. } = part.step(PartEvent::StopPart) else {
        return None;
    };
    Some(part.calls().len() == actors as usize)
}

// How many calls begin and end in one part that is locked, opens and drains; `None` if these are two numbers.
fn begin_and_end(alloc: Global, actors: u32) -> Option<u32> {
    let mut part = open_part(alloc)?;
    let _locked = part.step(PartEvent::Lock { version: 2 });
    ask_each(alloc, &mut part, actors)?;
    let begun = begin_all(alloc, &mut part)?;
    let ended = end_all(alloc, &mut part)?;
    if begun == ended { Some(ended) } else { None }
}

/// All of it; the number of actors if each of their calls began and ended.
pub fn run_all(alloc: Global, actors: u32, hosts: u32) -> Option<u32> {
    let ended = begin_and_end(alloc, actors)?;
    let stops = stops_all(alloc, actors)?;
    find_owners(alloc, hosts, 32, 1)?;
    if stops { Some(ended) } else { None }
}
