// An open part, and the keys of its actors.
ghost use Rattle.std.specs.Prelude.{◌≡◌, ◌<◌, IfSome};

use actor_names::{
    ActorKey, ActorType, default_space, read_actor_type, read_address, read_app_id, read_key,
    read_member,
};
use part_core::{Part, PartReply};
use part_model::{PartEvent, PartSettings, TypeList};
use place_table::{ActorTypes, HostInfo, Table, build_table};
use std::alloc::Global;

// The last digits of a number, in decimal.
fn digit(n: u32, unit: u32) -> u8
    requires { 0 < unit }
{
    b'0' + (n / unit % 10) as u8
}

// Five digits of a number.
pub fn digits(n: u32) -> [u8; 5] {
    [
        digit(n, 10_000),
        digit(n, 1_000),
        digit(n, 100),
        digit(n, 10),
        digit(n, 1),
    ]
}

/// The key of actor `n` of the type `counter`; `None` if memory runs out.
pub fn key_of(alloc: Global, n: u32) -> Option<ActorKey> {
    let [a, b, c, d, e] = digits(n);
    read_key(
        alloc,
        &[
            b'c', b'o', b'u', b'n', b't', b'e', b'r', b'/', a, b, c, d, e,
        ],
    )
    .ok()
}

fn kind(alloc: Global) -> Option<ActorType> {
    read_actor_type(alloc, b"counter").ok()
}

/// A table of this version whose only host is this member, a text such as `a/1`.
pub fn table_for(alloc: Global, member: &[u8], version: u64) -> Option<Table>
    ensures { IfSome result (λ table. table.version ≡ version) }
{
    let mut kinds = Vec::new(alloc);
    kinds.push(kind(alloc)?).ok()?;
    let host = HostInfo {
        member: read_member(member).ok()?,
        app: read_app_id(alloc, b"shop").ok()?,
        address: read_address(b"127.0.0.1:3500").ok()?,
        kinds: ActorTypes::from_vec(kinds),
    };
    build_table(alloc, &default_space(), version, &[host]).ok()
}

/// A table of this version whose only host is `a/1`.
pub fn table_of(alloc: Global, version: u64) -> Option<Table>
    ensures { IfSome result (λ table. table.version ≡ version) }
{
    table_for(alloc, b"a/1", version)
}

/// The part of `a/1`, opened at version 1.
pub fn open_part(alloc: Global) -> Option<Part> {
    let settings = PartSettings {
        member: read_member(b"a/1").ok()?,
        part: 3,
        kinds: TypeList::from_vec(Vec::new(alloc)),
    };
    let mut part = Part::new(alloc, settings).ok()?;
    let table = table_of(alloc, 1)?;
    let _locked = part.step(PartEvent::Lock { version: 1 });
    let _updated = part.step(PartEvent::Update { table, now: 10 });
    let _opened = part.step(PartEvent::Unlock { version: 1 });
    Some(part)
}

/// One call of the actor, from beginning to end; whether it had its turn.
pub fn take_turn(part: &mut Part, key: ActorKey) -> bool {
    let ask = PartEvent::Ask {
        key,
        chain: None,
        now: 20,
    };
    match part.step(ask) {
        PartReply::Begun { call, .. } => {
            matches!(
                part.step(PartEvent::End { call, now: 30 }),
                PartReply::Ended { .. }
            )
        }
        _ => false,
    }
}

/// An open part with this many active actors, of which none has an open turn.
pub fn busy_part(alloc: Global, actors: u32) -> Option<Part> {
    let mut part = open_part(alloc)?;
    for n in 0..actors {
        let key = key_of(alloc, n)?;
        let _turn = take_turn(&mut part, key);
    }
    Some(part)
}
