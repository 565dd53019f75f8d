// Requests of the actors API, and what is answered to them.
use crate::parts::{bytes, fields, one_field, shown};
use actor_names::{ChainId, default_space, read_address, read_app_id, read_member};
use actors_api::{ApiCommand, ApiName, ApiRefusal, ApiReply, Side, read_api, write_api};
use call_names::{CallName, add_call};
use case_texts::{cut, escaped_bytes};
use http_edge::{Body, Bytes, HttpField, HttpRequest};
use place_table::{ActorTypes, HostInfo};
use schedule_text::ScheduleError;
use std::alloc::Global;

/// `METHOD|TARGET|NAME|VALUE|BYTES`; what is missing at the end is empty.
pub(crate) fn request(alloc: Global, text: &str) -> Option<HttpRequest> {
    let (method, rest) = cut(text, '|');
    let (target, rest) = cut(rest, '|');
    let (name, rest) = cut(rest, '|');
    let (value, body) = cut(rest, '|');
    let method = bytes(alloc, method)?;
    let target = bytes(alloc, target)?;
    let fields = one_field(alloc, name, value)?;
    let body = Body::from_vec(escaped_bytes(alloc, body)?);
    Some(HttpRequest {
        method,
        target,
        fields,
        body,
        close: false,
    })
}

/// Two pieces, one behind the other.
pub(crate) fn joined(alloc: Global, word: &[u8], more: &[u8]) -> Option<Vec<u8>> {
    let mut text = Vec::from_slice(alloc, word).ok()?;
    text.extend_from_slice(more).ok()?;
    Some(text)
}

// The chain of a call; empty if there is none.
fn chain_text(chain: &Option<ChainId>) -> &[u8] {
    match chain {
        Some(chain) => chain.as_slice(),
        None => b"",
    }
}

// A call's method and chain, whether a version is told, and the name of a forwarded call.
fn called(
    alloc: Global,
    method: &Bytes,
    chain: &Option<ChainId>,
    least: &Option<u64>,
    call: &Option<CallName>,
) -> Option<Vec<u8>> {
    let mut text = joined(alloc, method.as_slice(), b" ")?;
    text.extend_from_slice(chain_text(chain)).ok()?;
    if least.is_some() {
        text.extend_from_slice(b" least").ok()?;
    }
    if let Some(call) = call {
        text.extend_from_slice(b" ").ok()?;
        add_call(&mut text, call).ok()?;
    }
    Some(text)
}

// What is asked for.
fn command_text(alloc: Global, command: &ApiCommand) -> Option<Vec<u8>> {
    match command {
        ApiCommand::Invoke {
            method,
            chain,
            least,
            call,
            ..
        } => called(alloc, method, chain, least, call),
        ApiCommand::Transact { .. } => joined(alloc, b"transact", b""),
        ApiCommand::GetState { key, .. } => joined(alloc, b"get ", key.as_str().as_bytes()),
        ApiCommand::PutReminder { name, .. } => joined(alloc, b"put ", name.as_slice()),
        ApiCommand::GetReminder { name, .. } => joined(alloc, b"show ", name.as_slice()),
        ApiCommand::DeleteReminder { name, .. } => joined(alloc, b"remove ", name.as_slice()),
        ApiCommand::SetTimer { name, .. } => joined(alloc, b"set ", name.as_slice()),
        ApiCommand::DeleteTimer { name, .. } => joined(alloc, b"unset ", name.as_slice()),
    }
}

// The body that tells a refusal.
fn refused(alloc: Global, side: Side, refusal: ApiRefusal) -> Option<String> {
    let response = write_api(alloc, side, ApiReply::Refused { refusal }).ok()?;
    shown(alloc, response.body.as_slice())
}

// What a request asks for, or the refusal.
fn read_as(alloc: Global, side: Side, request: &HttpRequest) -> Option<String> {
    match &read_api(alloc, &default_space(), side, request, 1000) {
        Ok(command) => shown(alloc, command_text(alloc, command)?.as_slice()),
        Err(refusal) => refused(alloc, side, *refusal),
    }
}

/// What a request asks for, or the refusal.
pub(crate) fn said(alloc: Global, side: Side, text: &str) -> Option<String> {
    let request = request(alloc, text)?;
    read_as(alloc, side, &request)
}

/// What a call that another sidecar forwards with these fields asks for, or the refusal.
pub(crate) fn forwarded(alloc: Global, list: &str) -> Option<String> {
    let request = HttpRequest {
        method: bytes(alloc, "POST")?,
        target: bytes(alloc, "/v1.0/actors/order/42/method/m")?,
        fields: fields(alloc, list)?,
        body: Body::from_vec(Vec::new(alloc)),
        close: false,
    };
    read_as(alloc, Side::Peer, &request)
}

fn of_request(word: &str) -> Option<ApiRefusal> {
    match word {
        "NoRoute" => Some(ApiRefusal::NoRoute),
        "WrongMethod" => Some(ApiRefusal::WrongMethod),
        "MalformedBody" => Some(ApiRefusal::MalformedBody),
        "OtherNumber" => Some(ApiRefusal::OtherNumber),
        "OutOfMemory" => Some(ApiRefusal::OutOfMemory),
        "MalformedHead" => Some(ApiRefusal::MalformedHead),
        "HeadTooLong" => Some(ApiRefusal::HeadTooLong),
        "Chunked" => Some(ApiRefusal::Chunked),
        "BodyTooLong" => Some(ApiRefusal::BodyTooLong),
        _ => of_actor(word),
    }
}

fn of_actor(word: &str) -> Option<ApiRefusal> {
    match word {
        "NotActive" => Some(ApiRefusal::NotActive),
        "TimersFull" => Some(ApiRefusal::TimersFull),
        "NoReminder" => Some(ApiRefusal::NoReminder),
        "QueueFull" => Some(ApiRefusal::QueueFull),
        "PartFull" => Some(ApiRefusal::PartFull),
        "Aborted" => Some(ApiRefusal::Aborted),
        "Stopped" => Some(ApiRefusal::Stopped),
        "Moved" => Some(ApiRefusal::Moved {
            versions: [1, 2, 3, 4, 5, 6, 7, 8],
        }),
        _ => of_links(word),
    }
}

fn of_links(word: &str) -> Option<ApiRefusal> {
    match word {
        "AppFault" => Some(ApiRefusal::AppFault),
        "PeerFault" => Some(ApiRefusal::PeerFault),
        "StoreFault" => Some(ApiRefusal::StoreFault),
        "AppReply" => Some(ApiRefusal::AppReply),
        "PeerReply" => Some(ApiRefusal::PeerReply),
        "StoreReply" => Some(ApiRefusal::StoreReply),
        "CallRunning" => Some(ApiRefusal::CallRunning),
        "CallLanes" => Some(ApiRefusal::CallLanes),
        "BookFull" => Some(ApiRefusal::BookFull),
        "Spent" => Some(ApiRefusal::Spent),
        _ => None,
    }
}

fn name_of(word: &str) -> Option<ApiName> {
    match word {
        "Type" => Some(ApiName::Type),
        "Id" => Some(ApiName::Id),
        "Method" => Some(ApiName::Method),
        "Key" => Some(ApiName::Key),
        "Name" => Some(ApiName::Name),
        "Chain" => Some(ApiName::Chain),
        "Least" => Some(ApiName::Least),
        "Call" => Some(ApiName::Call),
        _ => None,
    }
}

// `NAME` or `NAME AT`
fn fault_of(text: &str) -> Option<ScheduleError> {
    let (word, at) = cut(text, ' ');
    match word {
        "BadMoment" => {
            let at = at.parse::<u64>().ok()?;
            Some(ScheduleError::BadMoment { at })
        }
        "BadDuration" => {
            let at = at.parse::<u64>().ok()?;
            Some(ScheduleError::BadDuration { at })
        }
        "Negative" => Some(ScheduleError::Negative),
        "ZeroRepeats" => Some(ScheduleError::ZeroRepeats),
        "OutOfRange" => Some(ScheduleError::OutOfRange),
        _ => None,
    }
}

fn with_number(word: &str, text: &str) -> Option<ApiRefusal> {
    let number = text.parse::<u64>().ok()?;
    match word {
        "TooLarge" => Some(ApiRefusal::TooLarge { index: number }),
        "NoHost" => Some(ApiRefusal::NoHost { version: number }),
        "Depth" => Some(ApiRefusal::Depth { turns: number }),
        "Behind" => Some(ApiRefusal::Behind { seen: number }),
        "CallOld" => Some(ApiRefusal::CallOld { floor: number }),
        "CallBoot" => Some(ApiRefusal::CallBoot { boot: number }),
        _ => None,
    }
}

// `LAST VERSION`
fn not_rising(text: &str) -> Option<ApiRefusal> {
    let (last, version) = text.split_once(' ')?;
    let last = last.parse::<u64>().ok()?;
    let version = version.parse::<u64>().ok()?;
    Some(ApiRefusal::NotRising { last, version })
}

// `NAME NUMBER ..`
fn refusal_of(text: &str) -> Option<ApiRefusal> {
    let (word, rest) = cut(text, ' ');
    if rest.is_empty() {
        return of_request(word);
    }
    match word {
        "BadName" => {
            let name = name_of(rest)?;
            Some(ApiRefusal::BadName { name })
        }
        "BadSchedule" => {
            let fault = fault_of(rest)?;
            Some(ApiRefusal::BadSchedule { fault })
        }
        "NotRising" => not_rising(rest),
        "StoreRefused" => {
            let code = rest.parse::<u8>().ok()?;
            Some(ApiRefusal::StoreRefused { code })
        }
        "AnswerGone" => {
            let status = rest.parse::<u16>().ok()?;
            Some(ApiRefusal::AnswerGone { status })
        }
        _ => with_number(word, rest),
    }
}

/// `STATUS BODY`
pub(crate) fn told(alloc: Global, text: &str) -> Option<String> {
    let refusal = refusal_of(text)?;
    let response = write_api(alloc, Side::Caller, ApiReply::Refused { refusal }).ok()?;
    let body = shown(alloc, response.body.as_slice())?;
    let status = response.status;
    format!(in alloc; "{status} {body}").ok()
}

// `NAME VALUE` of the last field
fn last_words(alloc: Global, fields: &[HttpField]) -> Option<String> {
    let field = fields.last()?;
    let name = shown(alloc, field.name.as_slice())?;
    let value = shown(alloc, field.value.as_slice())?;
    format!(in alloc; "{name} {value}").ok()
}

/// `COUNT NAME VALUE`: how many fields another sidecar is told, and the last one.
pub(crate) fn told_peer(alloc: Global, text: &str) -> Option<String> {
    let refusal = refusal_of(text)?;
    let response = write_api(alloc, Side::Peer, ApiReply::Refused { refusal }).ok()?;
    let count = response.fields.as_slice().len();
    let last = last_words(alloc, response.fields.as_slice())?;
    format!(in alloc; "{count} {last}").ok()
}

// `MEMBER APP ADDRESS`
fn owner_of(alloc: Global, text: &str) -> Option<HostInfo> {
    let (member, rest) = text.split_once(' ')?;
    let (app, address) = rest.split_once(' ')?;
    let member = read_member(member.as_bytes()).ok()?;
    let app = read_app_id(alloc, app.as_bytes()).ok()?;
    let address = read_address(address.as_bytes()).ok()?;
    let kinds = ActorTypes::from_vec(Vec::new(alloc));
    Some(HostInfo {
        member,
        app,
        address,
        kinds,
    })
}

/// `STATUS COUNT VALUE`: the number of fields, and the value of the last one.
pub(crate) fn elsewhere(alloc: Global, text: &str) -> Option<String> {
    let (version, rest) = text.split_once(' ')?;
    let version = version.parse::<u64>().ok()?;
    let owner = owner_of(alloc, rest)?;
    let response = write_api(alloc, Side::Peer, ApiReply::Elsewhere { version, owner }).ok()?;
    let status = response.status;
    let count = response.fields.as_slice().len();
    let value = shown(alloc, response.fields.as_slice().last()?.value.as_slice())?;
    format!(in alloc; "{status} {count} {value}").ok()
}
