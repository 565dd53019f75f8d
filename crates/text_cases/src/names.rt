// Names: their faults, what is read, how they compare, and their spaces.
use actor_names::{
    ActorKey, Member, Name, NameError, NameForm, Space, actor_id_fault, actor_type_fault,
    address_fault, app_id_fault, chain_id_fault, default_space, key_fault, key_kind, member_fault,
    node_fault, read_actor_id, read_actor_type, read_address, read_app_id, read_chain_id, read_key,
    read_local_key, read_member, read_node, read_record_name, read_space, record_name_fault,
    space_fault,
};
use std::alloc::Global;
use std::cmp::Ordering;

// The fault of a text as a name of this form; `None` if there is no such form.
fn fault_of(form: &str, text: &[u8]) -> Option<Option<NameError>> {
    match form {
        "space" => Some(space_fault(text)),
        "node" => Some(node_fault(text)),
        "app" => Some(app_id_fault(text)),
        "type" => Some(actor_type_fault(text)),
        "id" => Some(actor_id_fault(text)),
        "chain" => Some(chain_id_fault(text)),
        "record" => Some(record_name_fault(text)),
        "key" => Some(key_fault(text)),
        "member" => Some(member_fault(text)),
        "address" => Some(address_fault(text)),
        _ => None,
    }
}

/// `FORM TEXT`
pub(crate) fn fault(alloc: Global, text: &str) -> Option<String> {
    let (form, text) = text.split_once(' ')?;
    match fault_of(form, text.as_bytes())? {
        None => String::from_str(alloc, "none").ok(),
        Some(error) => format!(in alloc; "{error}").ok(),
    }
}

/// The text of bytes.
pub(crate) fn words(alloc: Global, bytes: &[u8]) -> Option<String> {
    String::from_utf8(Vec::from_slice(alloc, bytes).ok()?).ok()
}

fn copied<F: NameForm>(alloc: Global, name: &Name<F>) -> Option<String> {
    let copy = name.copy(alloc).ok()?;
    words(alloc, copy.as_slice())
}

/// `FORM TEXT`
pub(crate) fn read(alloc: Global, text: &str) -> Option<String> {
    let (form, text) = text.split_once(' ')?;
    let text = text.as_bytes();
    match form {
        "type" => copied(alloc, &read_actor_type(alloc, text).ok()?),
        "id" => copied(alloc, &read_actor_id(alloc, text).ok()?),
        "app" => copied(alloc, &read_app_id(alloc, text).ok()?),
        "record" => copied(alloc, &read_record_name(alloc, text).ok()?),
        form => placed(alloc, form, text),
    }
}

fn placed(alloc: Global, form: &str, text: &[u8]) -> Option<String> {
    match form {
        "node" => words(alloc, read_node(text).ok()?.copy().as_slice()),
        "key" => key(alloc, text),
        "member" => member_words(alloc, &read_member(text).ok()?.copy()),
        "address" => address(alloc, text),
        _ => None,
    }
}

fn key_words(alloc: Global, key: &ActorKey) -> Option<String> {
    let space = words(alloc, key.space.as_slice())?;
    let kind = words(alloc, key.kind.as_slice())?;
    let id = words(alloc, key.id.as_slice())?;
    format!(in alloc; "{space} {kind} {id}").ok()
}

fn key(alloc: Global, text: &[u8]) -> Option<String> {
    let key = read_key(alloc, text).ok()?;
    let copy = key.copy(alloc).ok()?;
    key_words(alloc, &copy)
}

fn member_words(alloc: Global, member: &Member) -> Option<String> {
    let space = words(alloc, member.space.as_slice())?;
    let node = words(alloc, member.node.as_slice())?;
    let boot = member.boot;
    format!(in alloc; "{space} {node} {boot}").ok()
}

fn address(alloc: Global, text: &[u8]) -> Option<String> {
    let address = read_address(text).ok()?.copy();
    let ip = address.ip;
    let port = address.port;
    format!(in alloc; "{ip} {port}").ok()
}

/// The bytes before the slash of a key without a space.
pub(crate) fn kind(alloc: Global, text: &str) -> Option<String> {
    words(alloc, key_kind(text.as_bytes()))
}

/// A copy of a chain's identifier, and whether it equals its source.
pub(crate) fn chain(alloc: Global, text: &str) -> Option<String> {
    let chain = read_chain_id(alloc, text.as_bytes()).ok()?;
    let copy = chain.copy(alloc).ok()?;
    let is_equal = copy == chain;
    let text = words(alloc, copy.as_slice())?;
    format!(in alloc; "{text} {is_equal}").ok()
}

// Whether the copy of the key of `SPACE:TEXT` equals this one.
fn is_behind(alloc: Global, space: &str, text: &str, key: &ActorKey) -> Option<bool> {
    let whole = format!(in alloc; "{space}:{text}").ok()?;
    let other = read_key(alloc, whole.as_bytes()).ok()?.copy(alloc).ok()?;
    Some(other == *key)
}

/// `SPACE TEXT`
pub(crate) fn local(alloc: Global, text: &str) -> Option<String> {
    let (name, text) = text.split_once(' ')?;
    let space = read_space(name.as_bytes()).ok()?;
    let key = read_local_key(alloc, &space, text.as_bytes()).ok()?;
    let is_equal = is_behind(alloc, name, text, &key)?;
    let key = key_words(alloc, &key)?;
    format!(in alloc; "{key} {is_equal}").ok()
}

fn told(alloc: Global, order: Ordering, is_equal: bool) -> Option<String> {
    let order = match order {
        Ordering::Less => "less",
        Ordering::Equal => "equal",
        Ordering::Greater => "greater",
    };
    format!(in alloc; "{order} {is_equal}").ok()
}

fn ids(alloc: Global, one: &[u8], other: &[u8]) -> Option<String> {
    let one = read_actor_id(alloc, one).ok()?;
    let other = read_actor_id(alloc, other).ok()?;
    told(alloc, one.cmp(&other), one == other)
}

fn keys(alloc: Global, one: &[u8], other: &[u8]) -> Option<String> {
    let one = read_key(alloc, one).ok()?;
    let other = read_key(alloc, other).ok()?;
    told(alloc, one.cmp(&other), one == other)
}

fn members(alloc: Global, one: &[u8], other: &[u8]) -> Option<String> {
    let one = read_member(one).ok()?;
    let other = read_member(other).ok()?;
    told(alloc, one.cmp(&other), one == other)
}

/// `FORM ONE OTHER`
pub(crate) fn order(alloc: Global, text: &str) -> Option<String> {
    let (form, rest) = text.split_once(' ')?;
    let (one, other) = rest.split_once(' ')?;
    let one = one.as_bytes();
    let other = other.as_bytes();
    match form {
        "id" => ids(alloc, one, other),
        "key" => keys(alloc, one, other),
        "member" => members(alloc, one, other),
        _ => None,
    }
}

// `KEY MEMBER`
fn are_in(alloc: Global, space: &Space, text: &str) -> Option<String> {
    let (key, member) = text.split_once(' ')?;
    let key = read_key(alloc, key.as_bytes()).ok()?.space;
    let member = read_member(member.as_bytes()).ok()?.space;
    let has_key = key == *space;
    let has_member = member == *space;
    let is_shared = member == key;
    format!(in alloc; "{has_key} {has_member} {is_shared}").ok()
}

/// `SPACE KEY MEMBER`
pub(crate) fn in_space(alloc: Global, text: &str) -> Option<String> {
    let (space, rest) = text.split_once(' ')?;
    are_in(alloc, &read_space(space.as_bytes()).ok()?, rest)
}

/// `KEY MEMBER`
pub(crate) fn in_default(alloc: Global, text: &str) -> Option<String> {
    are_in(alloc, &default_space(), text)
}
