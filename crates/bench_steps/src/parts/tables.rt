// Tables of many hosts, and what they are made from.
use crate::parts::actors::{digits, key_of};
use actor_names::{default_space, read_actor_type, read_address, read_app_id, read_member};
use place_table::{ActorTypes, HostInfo, Table, build_table, key_hash};
use std::alloc::Global;

const POINTS: u32 = 100;

// Host `n`, which serves this many types.
fn host_of(alloc: Global, n: u32, types: u32) -> Option<HostInfo> {
    let [a, b, c, d, e] = digits(n);
    let mut kinds = Vec::new(alloc);
    kinds.push(read_actor_type(alloc, b"counter").ok()?).ok()?;
    for other in 1..types {
        let [f, g, h, i, j] = digits(other);
        kinds
            .push(read_actor_type(alloc, &[b'k', f, g, h, i, j]).ok()?)
            .ok()?;
    }
    Some(HostInfo {
        member: read_member(&[b'n', a, b, c, d, e, b'/', b'1']).ok()?,
        app: read_app_id(alloc, b"shop").ok()?,
        address: read_address(b"127.0.0.1:3500").ok()?,
        kinds: ActorTypes::from_vec(kinds),
    })
}

fn hosts_of(alloc: Global, hosts: u32, types: u32) -> Option<Vec<HostInfo>> {
    let mut all = Vec::new(alloc);
    for n in 0..hosts {
        all.push(host_of(alloc, n, types)?).ok()?;
    }
    Some(all)
}

fn table_of(alloc: Global, hosts: u32, types: u32) -> Option<Table> {
    build_table(
        alloc,
        &default_space(),
        1,
        hosts_of(alloc, hosts, types)?.as_slice(),
    )
    .ok()
}

/// Hashes the id of one actor.
pub fn hash_ids(alloc: Global, rounds: u32) -> Option<u32> {
    let key = key_of(alloc, 7)?;
    let mut low = 0;
    for _ in 0..rounds {
        low |= key_hash(&key.id) & 1;
    }
    Some(if low < 2 { rounds } else { 0 })
}

/// Looks for the owner of one actor.
pub fn find_owners(alloc: Global, hosts: u32, types: u32, rounds: u32) -> Option<u32> {
    let table = table_of(alloc, hosts, types)?;
    let key = key_of(alloc, 7)?;
    for _ in 0..rounds {
        table.owner_uncounted(&key)?;
    }
    Some(rounds)
}

// The places of a host's points; the numbers of the points are hashed as if they were ids.
fn push_points(alloc: Global, host: u32, points: &mut Vec<u64>) -> Option<()> {
    for point in 0..POINTS {
        let key = key_of(alloc, host ^ point)?;
        points.push(key_hash(&key.id)).ok()?;
    }
    Some(())
}

/// Hashes and sorts as many points as the hosts of a table have.
pub fn sort_points(alloc: Global, hosts: u32, rounds: u32) -> Option<u32> {
    for _ in 0..rounds {
        let mut points = Vec::new(alloc);
        for host in 0..hosts {
            push_points(alloc, host, &mut points)?;
        }
        points.sort_unstable();
    }
    Some(rounds)
}

/// Builds the same table again and again.
pub fn build_tables(alloc: Global, hosts: u32, rounds: u32) -> Option<u32> {
    let all = hosts_of(alloc, hosts, 1)?;
    for _ in 0..rounds {
        let _table = build_table(alloc, &default_space(), 1, all.as_slice()).ok()?;
    }
    Some(rounds)
}
