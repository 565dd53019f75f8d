// Calls of actors.
use crate::parts::actors::{busy_part, key_of, take_turn};
use part_core::PartReply;
use part_model::PartEvent;
use std::alloc::Global;

// The actor of a round: each in turn.
fn actor_of(round: u32, actors: u32) -> u32 {
    match actors {
        0 => 0,
        actors => round % actors,
    }
}

/// The keys of a trial, and nothing else.
pub fn make_keys(alloc: Global, actors: u32, rounds: u32) -> Option<u32> {
    let _part = busy_part(alloc, actors)?;
    for round in 0..rounds {
        let _key = key_of(alloc, actor_of(round, actors))?;
    }
    Some(rounds)
}

/// Each round has one turn.
pub fn ask_all(alloc: Global, actors: u32, rounds: u32) -> Option<u32> {
    let mut part = busy_part(alloc, actors)?;
    for round in 0..rounds {
        let key = key_of(alloc, actor_of(round, actors))?;
        if !take_turn(&mut part, key) {
            return None;
        }
    }
    Some(rounds)
}

/// Each round has one hold. A release needs a key too, so two are made.
pub fn hold_all(alloc: Global, actors: u32, rounds: u32) -> Option<u32> {
    let mut part = busy_part(alloc, actors)?;
    for round in 0..rounds {
        let n = actor_of(round, actors);
        let (held, free) = (key_of(alloc, n)?, key_of(alloc, n)?);
        let hold = part.step(PartEvent::Hold { key: held });
        let release = part.step(PartEvent::Release { key: free, now: 40 });
        let (PartReply::Held { .. }, PartReply::Released) = (hold, release) else {
            return None;
        };
    }
    Some(rounds)
}

/// Looks at a call whose turn is open.
pub fn poll_one(alloc: Global, actors: u32, rounds: u32) -> Option<u32> {
    let mut part = busy_part(alloc, actors)?;
    let ask = PartEvent::Ask {
        key: key_of(alloc, 0)?,
        chain: None,
        now: 20,
    };
    let PartReply::Begun { call, .. } = part.step(ask) else {
        return None;
    };
    for _ in 0..rounds {
        let PartReply::Begun { .. } = part.step(PartEvent::Poll { call }) else {
            return None;
        };
    }
    Some(rounds)
}
