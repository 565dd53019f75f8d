// Tables of hosts, and the numbers that places and versions are written as.
use crate::names::words;
use actor_names::{
    ActorKey, default_space, read_actor_id, read_actor_type, read_address, read_app_id, read_key,
    read_member,
};
use case_texts::cut;
use lists_and_limits::read_decimal;
use place_table::{ActorTypes, HostInfo, Table, build_table, key_hash, moved_law, part_of};
use std::alloc::Global;

/// `PARTS ID`
pub(crate) fn place(alloc: Global, text: &str) -> Option<String> {
    let (parts, id) = text.split_once(' ')?;
    let parts = parts.parse::<u8>().ok()?;
    let id = read_actor_id(alloc, id.as_bytes()).ok()?;
    if parts == 0 {
        return None;
    }
    let hash = key_hash(&id);
    let part = part_of(&id, parts);
    format!(in alloc; "{hash:016x} {part}").ok()
}

// `TYPE,TYPE ..`
fn types_of(alloc: Global, text: &str) -> Option<ActorTypes> {
    let mut kinds = Vec::new(alloc);
    for kind in text.split(',') {
        let kind = read_actor_type(alloc, kind.as_bytes()).ok()?;
        kinds.push(kind).ok()?;
    }
    Some(ActorTypes::from_vec(kinds))
}

// `MEMBER|TYPES`
fn host_of(alloc: Global, text: &str) -> Option<HostInfo> {
    let (member, kinds) = text.split_once('|')?;
    let member = read_member(member.as_bytes()).ok()?;
    let app = read_app_id(alloc, b"shop").ok()?;
    let address = read_address(b"127.0.0.1:3500").ok()?;
    let kinds = types_of(alloc, kinds)?;
    Some(HostInfo {
        member,
        app,
        address,
        kinds,
    })
}

// `HOST ..`; it may be empty.
fn hosts_of(alloc: Global, text: &str) -> Option<Vec<HostInfo>> {
    let mut hosts = Vec::new(alloc);
    for host in text.split(' ') {
        if !host.is_empty() {
            hosts.push(host_of(alloc, host)?).ok()?;
        }
    }
    Some(hosts)
}

// `VERSION HOST ..`
fn table_of(alloc: Global, text: &str) -> Option<Table> {
    let (version, hosts) = text.split_once(' ')?;
    let version = version.parse::<u64>().ok()?;
    let hosts = hosts_of(alloc, hosts)?;
    build_table(alloc, &default_space(), version, hosts.as_slice()).ok()
}

// The version, and the node of the owner.
fn owner_words(alloc: Global, table: &Table, key: &ActorKey) -> Option<String> {
    let version = table.version();
    match table.owner_uncounted(key) {
        None => format!(in alloc; "{version} none").ok(),
        Some(host) => {
            let node = words(alloc, host.member.node.as_slice())?;
            format!(in alloc; "{version} {node}").ok()
        }
    }
}

/// `KEY VERSION HOST ..`
pub(crate) fn owner(alloc: Global, text: &str) -> Option<String> {
    let (key, table) = text.split_once(' ')?;
    let key = read_key(alloc, key.as_bytes()).ok()?;
    owner_words(alloc, &table_of(alloc, table)?, &key)
}

// Takes a value that can be moved between threads.
fn sent<T: Send>(table: T) -> T {
    table
}

/// The same of a copy that outlives its table, and then the nodes of its hosts.
pub(crate) fn copied(alloc: Global, text: &str) -> Option<String> {
    let (key, table) = text.split_once(' ')?;
    let key = read_key(alloc, key.as_bytes()).ok()?;
    let table = table_of(alloc, table)?;
    let copy = sent(table.copy().ok()?);
    drop(table);
    let mut answer = owner_words(alloc, &copy, &key)?;
    for host in copy.hosts() {
        answer.push_str(" ").ok()?;
        let node = words(alloc, host.member.node.as_slice())?;
        answer.push_str(node.as_str()).ok()?;
    }
    Some(answer)
}

/// `KEY MORE HOST ..`
pub(crate) fn moved(alloc: Global, text: &str) -> Option<String> {
    let (key, rest) = text.split_once(' ')?;
    let (more, rest) = cut(rest, ' ');
    let key = read_key(alloc, key.as_bytes()).ok()?;
    let more = host_of(alloc, more)?;
    let hosts = hosts_of(alloc, rest)?;
    let moved = moved_law(alloc, &default_space(), hosts.as_slice(), &more, &key).ok()?;
    format!(in alloc; "{moved}").ok()
}

/// `MOST TEXT`
pub(crate) fn decimal(alloc: Global, text: &str) -> Option<String> {
    let (most, text) = text.split_once(' ')?;
    match read_decimal(text.as_bytes(), most.parse::<u64>().ok()?) {
        None => String::from_str(alloc, "none").ok(),
        Some(number) => format!(in alloc; "{number}").ok(),
    }
}
