// Tables and time: steps that concern all actors.
use crate::parts::actors::{busy_part, table_of};
use part_core::PartReply;
use part_model::PartEvent;
use std::alloc::Global;

/// Ticks between an Update and its Unlock.
pub fn tick_all(alloc: Global, actors: u32, rounds: u32) -> Option<u32> {
    let mut part = busy_part(alloc, actors)?;
    let table = table_of(alloc, 2)?;
    let _locked = part.step(PartEvent::Lock { version: 2 });
    let _updated = part.step(PartEvent::Update { table, now: 50 });
    for _ in 0..rounds {
        let PartReply::Ticked { .. } = part.step(PartEvent::Tick { now: 60 }) else {
            return None;
        };
    }
    Some(rounds)
}

/// Whole rounds of a table.
pub fn unlock_all(alloc: Global, actors: u32, rounds: u32) -> Option<u32> {
    let mut part = busy_part(alloc, actors)?;
    for round in 0..rounds {
        let version = round as u64 + 2;
        let table = table_of(alloc, version)?;
        let _locked = part.step(PartEvent::Lock { version });
        let _updated = part.step(PartEvent::Update { table, now: 50 });
        let PartReply::Opened { .. } = part.step(PartEvent::Unlock { version }) else {
            return None;
        };
    }
    Some(rounds)
}

/// Deactivations, a long time after the last turn.
pub fn close_all(alloc: Global, actors: u32, rounds: u32) -> Option<u32> {
    let mut part = busy_part(alloc, actors)?;
    for round in 0..rounds {
        let PartReply::Close { key } = part.step(PartEvent::TakeClosing { now: 1_000_000_000 })
        else {
            return Some(round);
        };
        let _closed = part.step(PartEvent::Closed { key });
    }
    Some(rounds)
}
