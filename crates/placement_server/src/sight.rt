// What a Look shows that the one before it didn't.
use actor_names::{Member, Space};
use event_log::{EventLog, Notice};
use place_table::HostInfo;
use placement_node::{RoomSeen, SeenRooms};

/// The most rooms of a placement.
const MOST_ROOMS: usize = 64;

/// The rooms as they were seen last and when that was, in milliseconds since 1970; of each round that ran then, in order of the
/// rooms, a moment before it began, or the first Look if it ran at that; and how many members were dropped since.
#[derive(Drop)]
pub(crate) struct Sight {
    rooms: Option<SeenRooms>,
    at_ms: u64,
    since: [u64; MOST_ROOMS],
    dropped: u32,
}

impl Sight {
    /// Nothing was seen yet.
    pub(crate) fn none() -> Sight {
        Sight {
            rooms: None,
            at_ms: 0,
            since: [0; MOST_ROOMS],
            dropped: 0,
        }
    }

    /// A Tick has dropped so many members.
    pub(crate) fn drop_members(&mut self, dropped: u32) {
        self.dropped = self.dropped.saturating_add(dropped);
    }

    /// The rooms are so now. What has changed is said; of the first ones nothing is.
    pub(crate) fn show(&mut self, log: &EventLog, rooms: SeenRooms) {
        let now_ms = log.now_ms();
        let last_ms = if self.rooms.is_some() {
            self.at_ms
        } else {
            now_ms
        };
        let mut since = [last_ms; MOST_ROOMS];
        if let Some(seen) = self.rooms.take() {
            tell_rooms(log, seen.as_slice(), rooms.as_slice(), self.dropped);
            for at in 0..MOST_ROOMS {
                let Some(room) = rooms.as_slice().get(at) else {
                    break;
                };
                since[at] = self.tell_round(log, seen.as_slice(), room, now_ms);
            }
        }
        self.rooms = Some(rooms);
        self.at_ms = now_ms;
        self.since = since;
        self.dropped = 0;
    }

    // Says which rounds of a room ended and began since the last Look, and answers a moment before the one began that runs now.
    fn tell_round(&self, log: &EventLog, seen: &[RoomSeen], room: &RoomSeen, now_ms: u64) -> u64 {
        let place = seen.binary_search_by(|one| one.space.cmp(&room.space));
        let (version, ran, since_ms) = match place {
            Ok(at) => (
                seen[at].version,
                running(&seen[at]),
                self.since.get(at).copied().unwrap_or(self.at_ms),
            ),
            Err(_) => (0, None, self.at_ms),
        };
        let runs = running(room);
        if let Some(ran) = ran {
            if runs == Some(ran) {
                return since_ms;
            }
            say_end(log, room, ran, now_ms.saturating_sub(since_ms));
        }
        if room.version > version {
            log.say(Notice::RoundBegan {
                space: room.space,
                version: room.version,
            });
            if runs.is_none() {
                say_end(log, room, room.version, now_ms.saturating_sub(self.at_ms));
            }
        }
        self.at_ms
    }
}

// The version of the round that runs in a room.
fn running(room: &RoomSeen) -> Option<u64> {
    room.round.as_ref().map(|round| round.version)
}

// Says that a round of a room has ended.
fn say_end(log: &EventLog, room: &RoomSeen, version: u64, within_ms: u64) {
    log.say(Notice::RoundEnded {
        space: room.space,
        version,
        within_ms,
    });
}

// How a member went.
#[derive(Clone, Copy)]
enum Going {
    // Of its own accord.
    Left,
    // It was dropped.
    Lost,
    // One or the other.
    Either,
}

// How members went, of which so many are gone and so many were dropped by a Tick.
fn going_of(gone: u64, dropped: u32) -> Going {
    if dropped == 0 {
        Going::Left
    } else if u64::from(dropped) >= gone {
        Going::Lost
    } else {
        Going::Either
    }
}

// The room of a space, in a list in byte order of space.
fn room_of<'a>(rooms: &'a [RoomSeen], space: &Space) -> Option<&'a RoomSeen> {
    match rooms.binary_search_by(|room| room.space.cmp(space)) {
        Ok(at) => Some(&rooms[at]),
        Err(_) => None,
    }
}

// The members of a space's room.
fn members_of<'a>(rooms: &'a [RoomSeen], space: &Space) -> &'a [HostInfo] {
    match room_of(rooms, space) {
        Some(room) => room.members.as_slice(),
        None => &[],
    }
}

// Whether a member is in a room, whose members are in byte order of node.
fn is_in(hosts: &[HostInfo], member: &Member) -> bool {
    hosts
        .binary_search_by(|host| host.member.cmp(member))
        .is_ok()
}

// How many of the members that were there before aren't there now.
fn count_gone(before: &[HostInfo], now: &[HostInfo]) -> u64 {
    let mut gone = 0u64;
    for host in before {
        if !is_in(now, &host.member) {
            gone = gone.saturating_add(1);
        }
    }
    gone
}

// Says which members joined a room.
fn tell_joined(log: &EventLog, before: &[HostInfo], now: &[HostInfo]) {
    for host in now {
        if !is_in(before, &host.member) {
            log.say(Notice::Joined {
                member: host.member,
            });
        }
    }
}

// Says which members went from a room.
fn tell_gone(log: &EventLog, before: &[HostInfo], now: &[HostInfo], going: Going) {
    for host in before {
        let member = host.member;
        if !is_in(now, &member) {
            log.say(match going {
                Going::Left => Notice::Left { member },
                Going::Lost => Notice::Lost { member },
                Going::Either => Notice::Gone { member },
            });
        }
    }
}

// Says which members came and went between two Looks, between which so many members were dropped.
fn tell_rooms(log: &EventLog, before: &[RoomSeen], now: &[RoomSeen], dropped: u32) {
    let mut gone = 0u64;
    for room in before {
        let members = members_of(now, &room.space);
        gone = gone.saturating_add(count_gone(room.members.as_slice(), members));
    }
    let going = going_of(gone, dropped);
    for room in now {
        let members = members_of(before, &room.space);
        tell_gone(log, members, room.members.as_slice(), going);
        tell_joined(log, members, room.members.as_slice());
    }
}
