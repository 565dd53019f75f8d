// One case and its answer.
use crate::messages::Reading;
use crate::{api, applications, bodies, messages, rooms, values};
use actors_api::Side;
use std::alloc::Global;

/// The answer to a case; `None` if it is none, or memory ran out.
pub(crate) fn answer(alloc: Global, line: &str) -> Option<String> {
    let (word, rest) = line.split_once(' ')?;
    match word {
        "request" => messages::at_every_cut(alloc, Reading::Request, rest),
        "head" => messages::head(alloc, rest),
        "fields" => messages::head_of_fields(alloc, rest),
        "stream" => messages::stream(alloc, rest, &[]),
        "fault" => messages::fault(alloc, rest),
        "response" => messages::written(alloc, rest),
        "unwritten" => messages::unwritten(alloc, rest),
        "reply" => messages::at_every_cut(alloc, Reading::Reply, rest),
        "ended" => messages::ended(alloc, rest),
        "exchange" => messages::exchanged(alloc, rest),
        "broken" => messages::broken(alloc, rest),
        "config" => applications::config(alloc, rest.as_bytes()),
        "many" => applications::config(alloc, applications::many_types(alloc, rest)?.as_bytes()),
        "app-reply" => applications::reply_words(alloc, rest),
        "call" => applications::call(alloc, rest),
        "app-reminder" => applications::text_of(alloc, &applications::reminder(alloc, rest)?),
        "app-timer" => applications::text_of(alloc, &applications::timer(alloc, rest)?),
        "end" => applications::text_of(alloc, &applications::end(alloc, rest)?),
        "ask" => applications::text_of(alloc, &applications::question(alloc, rest)?),
        "app-peer" => applications::text_of(alloc, &applications::hand_on(alloc, rest)?),
        _ => of_api(alloc, word, rest),
    }
}

fn of_api(alloc: Global, word: &str, rest: &str) -> Option<String> {
    match word {
        "json" => values::json(alloc, rest),
        "arrays" => values::arrays(alloc, rest),
        "whole" => values::whole(alloc, rest),
        "member" => values::member(alloc, rest),
        "item" => values::item(alloc, rest),
        "quoted" => values::quoted(alloc, rest),
        "array" => values::array(alloc, rest),
        "object" => values::object(alloc, rest),
        "operations" => bodies::operations(alloc, rest),
        "deep" => bodies::deep(alloc, rest),
        "deletes" => bodies::deletes(alloc, rest),
        "reminder" => bodies::reminder(alloc, rest),
        "timer" => bodies::timer(alloc, rest),
        "caller" => api::said(alloc, Side::Caller, rest),
        "peer" => api::said(alloc, Side::Peer, rest),
        "forwarded" => api::forwarded(alloc, rest),
        "refusal" => api::told(alloc, rest),
        "refused" => api::told_peer(alloc, rest),
        "elsewhere" => api::elsewhere(alloc, rest),
        "room" => rooms::asked(alloc, rest),
        "state" => rooms::state(alloc, rest),
        "rounds" => rooms::rounds(alloc, rest),
        _ => None,
    }
}
