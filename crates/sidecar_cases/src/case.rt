// One case and its answer.
use crate::beats::{beat, leave};
use crate::sessions::{Then, cuts, sessions};
use crate::turn::turn;
use actors_api::Side;
use case_texts::{add, escaped_bytes};
use std::alloc::Global;
use std::sync::Wait;

/// The name of a case and its answer; `None` if it is none, or memory ran out.
pub(crate) fn answer<R: Wait>(rt: &R, alloc: Global, line: &str) -> Option<String> {
    let (name, case) = line.split_once(' ')?;
    let mut text = String::new(alloc);
    add(name, &mut text)?;
    add(" ", &mut text)?;
    add_answer(rt, alloc, case, &mut text)?;
    Some(text)
}

fn add_answer<R: Wait>(rt: &R, alloc: Global, case: &str, text: &mut String) -> Option<()> {
    let (word, rest) = case.split_once(' ')?;
    match word {
        "session" => sessions(rt, alloc, Side::Caller, rest, Then::Nothing, text),
        "peers" => sessions(rt, alloc, Side::Peer, rest, Then::Nothing, text),
        "turns" => sessions(rt, alloc, Side::Caller, rest, Then::Turns, text),
        "idle" => sessions(rt, alloc, Side::Caller, rest, Then::LateTick, text),
        "turn" => turn(rt, alloc, rest.as_bytes(), text),
        "cuts" => cuts(rt, alloc, escaped_bytes(alloc, rest)?.as_slice(), text),
        "beat" => beat(rt, alloc, escaped_bytes(alloc, rest)?.as_slice(), text),
        "leave" => leave(rt, alloc, escaped_bytes(alloc, rest)?.as_slice(), text),
        _ => None,
    }
}
