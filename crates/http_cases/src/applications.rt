// What is said to applications and to other sidecars, and what both answer.
use crate::parts::{add_field, bytes, fields};
use actor_names::{
    ActorKey, Address, ChainId, RecordName, read_address, read_chain_id, read_key, read_record_name,
};
use actor_ports::MemConn;
use app_texts::{
    AppConfig, Callback, MethodCall, PeerCall, PeerReply, config_request, deactivate_request,
    invoke_text, peer_request, read_config, read_peer_reply, reminder_request, timer_request,
};
use call_names::read_call;
use case_texts::cut;
use http_edge::{Body, HttpFields, HttpRequest, HttpResponse, exchange, exchange_text};
use std::alloc::Global;

// An address and an actor, and the text behind both.
fn app_and_actor(alloc: Global, text: &str) -> Option<(Address, ActorKey, &str)> {
    let (app, rest) = cut(text, '|');
    let (actor, rest) = cut(rest, '|');
    let app = read_address(app.as_bytes()).ok()?;
    let actor = read_key(alloc, actor.as_bytes()).ok()?;
    Some((app, actor, rest))
}

// The chain that a text names, none if it is empty; `None` if it is no chain.
fn chain(alloc: Global, text: &str) -> Option<Option<ChainId>> {
    if text.is_empty() {
        return Some(None);
    }
    Some(Some(read_chain_id(alloc, text.as_bytes()).ok()?))
}

// A caller's request with these fields and this body.
fn request(alloc: Global, list: &str, body: &str) -> Option<HttpRequest> {
    let method = bytes(alloc, "POST")?;
    let target = bytes(alloc, "/v1.0/actors/order/42/method/add?x=1")?;
    let fields = fields(alloc, list)?;
    let body = Body::from_slice(alloc, body.as_bytes()).ok()?;
    Some(HttpRequest {
        method,
        target,
        fields,
        body,
        close: false,
    })
}

// A connection on which a reply without a body waits.
fn answered(alloc: Global) -> Option<MemConn> {
    MemConn::new(alloc, b"HTTP/1.1 200 OK\r\nContent-Length: 0\r\n\r\n", &[]).ok()
}

// What was written, in quotation marks, with its line ends escaped.
fn quoted(alloc: Global, written: &[u8]) -> Option<String> {
    let text = String::from_utf8(Vec::from_slice(alloc, written).ok()?).ok()?;
    format!(in alloc; "{text:?}").ok()
}

/// The text that an exchange writes of a request.
pub(crate) fn text_of(alloc: Global, request: &HttpRequest) -> Option<String> {
    let mut conn = answered(alloc)?;
    let _reply = exchange(alloc, request, &mut conn).ok()?;
    quoted(alloc, conn.written())
}

/// `APP|ACTOR|METHOD|CHAIN|FIELDS|BODY`
pub(crate) fn call(alloc: Global, text: &str) -> Option<String> {
    let (app, actor, rest) = app_and_actor(alloc, text)?;
    let (method, rest) = cut(rest, '|');
    let (named, rest) = cut(rest, '|');
    let (fields, body) = cut(rest, '|');
    let chain = chain(alloc, named)?;
    let request = request(alloc, fields, body)?;
    let call = MethodCall {
        actor: &actor,
        method: method.as_bytes(),
        chain: chain.as_ref(),
        request: &request,
    };
    let text = invoke_text(alloc, &app, &call).ok()?;
    let mut conn = answered(alloc)?;
    let _reply = exchange_text(alloc, text.as_slice(), &mut conn).ok()?;
    quoted(alloc, conn.written())
}

/// `OWNER|LEAST|CALL|FIELDS|BODY`
pub(crate) fn hand_on(alloc: Global, text: &str) -> Option<HttpRequest> {
    let (owner, rest) = cut(text, '|');
    let (least, rest) = cut(rest, '|');
    let (name, rest) = cut(rest, '|');
    let (fields, body) = cut(rest, '|');
    let owner = read_address(owner.as_bytes()).ok()?;
    let least = least.parse::<u64>().ok()?;
    let name = read_call(name.as_bytes())?;
    let request = request(alloc, fields, body)?;
    let call = PeerCall {
        request: &request,
        least,
        name: &name,
    };
    peer_request(alloc, &owner, &call).ok()
}

/// `APP|ACTOR`
pub(crate) fn end(alloc: Global, text: &str) -> Option<HttpRequest> {
    let (app, actor, _rest) = app_and_actor(alloc, text)?;
    deactivate_request(alloc, &app, &actor).ok()
}

/// `APP`
pub(crate) fn question(alloc: Global, text: &str) -> Option<HttpRequest> {
    let app = read_address(text.as_bytes()).ok()?;
    config_request(alloc, &app).ok()
}

// What a callback tells beside its actor.
#[derive(Drop)]
struct Registered<'a> {
    name: RecordName,
    chain: Option<ChainId>,
    data: Option<&'a [u8]>,
    due: &'a str,
    period: &'a str,
    rest: &'a str,
}

// `NAME|CHAIN|DATA|DUE|PERIOD`, and what follows
fn read_registered(alloc: Global, text: &str) -> Option<Registered<'_>> {
    let (name, rest) = cut(text, '|');
    let (named, rest) = cut(rest, '|');
    let (data, rest) = cut(rest, '|');
    let (due, rest) = cut(rest, '|');
    let (period, rest) = cut(rest, '|');
    let name = read_record_name(alloc, name.as_bytes()).ok()?;
    let chain = chain(alloc, named)?;
    let data = if data.is_empty() {
        None
    } else {
        Some(data.as_bytes())
    };
    Some(Registered {
        name,
        chain,
        data,
        due,
        period,
        rest,
    })
}

fn callback<'a>(actor: &'a ActorKey, registered: &'a Registered<'a>) -> Callback<'a> {
    Callback {
        actor,
        name: &registered.name,
        chain: registered.chain.as_ref(),
        payload: registered.data,
        due: registered.due,
        period: registered.period,
    }
}

/// `APP|ACTOR|NAME|CHAIN|DATA|DUE|PERIOD`
pub(crate) fn reminder(alloc: Global, text: &str) -> Option<HttpRequest> {
    let (app, actor, rest) = app_and_actor(alloc, text)?;
    let registered = read_registered(alloc, rest)?;
    reminder_request(alloc, &app, &callback(&actor, &registered)).ok()
}

/// `APP|ACTOR|NAME|CHAIN|DATA|DUE|PERIOD|METHOD`
pub(crate) fn timer(alloc: Global, text: &str) -> Option<HttpRequest> {
    let (app, actor, rest) = app_and_actor(alloc, text)?;
    let registered = read_registered(alloc, rest)?;
    timer_request(alloc, &app, registered.rest, &callback(&actor, &registered)).ok()
}

// `TYPE IDLE DRAIN DEPTH;` for each type
fn settings(alloc: Global, config: &AppConfig) -> Option<String> {
    let mut words = String::new(alloc);
    for settings in config.kinds.as_slice() {
        let kind = String::from_utf8(Vec::from_slice(alloc, settings.kind.as_slice()).ok()?).ok()?;
        let idle = settings.idle_ms;
        let drain = settings.drain_ms;
        let depth = settings.depth;
        let one = format!(in alloc; "{kind} {idle} {drain} {depth};").ok()?;
        words.push_str(one.as_str()).ok()?;
    }
    Some(words)
}

/// The settings of a configuration, or its refusal.
pub(crate) fn config(alloc: Global, body: &[u8]) -> Option<String> {
    match read_config(alloc, body) {
        Ok(config) => settings(alloc, &config),
        Err(error) => format!(in alloc; "{error}").ok(),
    }
}

/// The configuration that `COUNT MORE` stands for.
pub(crate) fn many_types(alloc: Global, text: &str) -> Option<String> {
    let (count, more) = text.split_once(' ')?;
    let count = count.parse::<u32>().ok()?;
    let mut body = String::from_str(alloc, "{\"entities\":[\"t0\"").ok()?;
    for number in 0..count {
        let one = format!(in alloc; ",\"t{number}\"").ok()?;
        body.push_str(one.as_str()).ok()?;
    }
    body.push_str("]").ok()?;
    body.push_str(more).ok()?;
    body.push_str("}").ok()?;
    Some(body)
}

// A reply with the fields of another sidecar's, where they aren't empty.
fn reply(alloc: Global, word: &str, owner: &str) -> Option<HttpResponse> {
    let mut fields = Vec::new(alloc);
    if !word.is_empty() {
        add_field(alloc, "ACTORS-refusal", word, &mut fields)?;
    }
    if !owner.is_empty() {
        add_field(alloc, "Actors-Owner", owner, &mut fields)?;
    }
    Some(HttpResponse {
        status: 421,
        fields: HttpFields::from_vec(fields),
        body: Body::from_vec(Vec::new(alloc)),
    })
}

/// What the reply `WORD|OWNER` says: for an owner the version, boot, address, port and number of types.
pub(crate) fn reply_words(alloc: Global, text: &str) -> Option<String> {
    let (word, owner) = cut(text, '|');
    let reply = reply(alloc, word, owner)?;
    match read_peer_reply(alloc, &reply) {
        PeerReply::Application => String::from_str(alloc, "application").ok(),
        PeerReply::Refusal { word } => String::from_str(alloc, word.text()).ok(),
        PeerReply::Elsewhere { version, owner } => {
            let boot = owner.member.boot;
            let ip = owner.address.ip;
            let port = owner.address.port;
            let types = owner.kinds.as_slice().len();
            format!(in alloc; "{version} {boot} {ip} {port} {types}").ok()
        }
        PeerReply::Unreadable => String::from_str(alloc, "unreadable").ok(),
        PeerReply::OutOfMemory => None,
    }
}
