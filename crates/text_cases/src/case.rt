// One case and its answer.
use crate::{frames, names, schedules, tables};
use case_texts::hex_bytes;
use std::alloc::Global;

/// The answer to a case; `None` if it is none, or memory ran out.
pub(crate) fn answer(alloc: Global, line: &str) -> Option<String> {
    let (word, rest) = line.split_once(' ')?;
    match word {
        "fault" => names::fault(alloc, rest),
        "read" => names::read(alloc, rest),
        "kind" => names::kind(alloc, rest),
        "chain" => names::chain(alloc, rest),
        "local" => names::local(alloc, rest),
        "in" => names::in_space(alloc, rest),
        "default" => names::in_default(alloc, rest),
        "order" => names::order(alloc, rest),
        "moment" => schedules::moment(alloc, rest),
        "due" => schedules::due(alloc, rest),
        "period" => schedules::period(alloc, rest),
        "first" => schedules::first(alloc, rest),
        "advance" => schedules::advance(alloc, rest),
        "print" => schedules::print(alloc, rest),
        "decimal" => tables::decimal(alloc, rest),
        "place" => tables::place(alloc, rest),
        "owner" => tables::owner(alloc, rest),
        "copied" => tables::copied(alloc, rest),
        "moved" => tables::moved(alloc, rest),
        _ => of_frames(alloc, word, hex_bytes(alloc, rest)?.as_slice()),
    }
}

fn of_frames(alloc: Global, word: &str, bytes: &[u8]) -> Option<String> {
    match word {
        "again" => frames::again(alloc, bytes),
        "cuts" => frames::cuts(alloc, bytes),
        "frame" => frames::frame(alloc, bytes),
        "command" => frames::command(alloc, bytes),
        _ => None,
    }
}
