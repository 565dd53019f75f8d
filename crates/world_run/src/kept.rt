// Messages as they are kept.
ghost use Rattle.std.specs.Prelude.{◌≡◌, ℕ, List, Some, IfOk};
ghost use Rattle.place_table.specs.Hosts.{PlacementTable};
ghost use Rattle.world_run.specs.Post.{messages_in, numbered, asked_of, kept_answer, updated_version, is_wanted, spot_for, is_request, is_register, place_wants};

use actor_names::{Member, OutOfMemory, Space};
use part_model::PartEvent;
use place_table::{AckStage, HostInfo, Table};
use round_core::{PlaceEvent, PlaceReply};
use std::alloc::Global;

/// A message as it is kept: a request to the placement, or an answer of it. An Update names its table by the table's
/// place among those that were sent.
#[derive(Drop)]
pub(crate) enum Kept {
    Register {
        host: HostInfo,
    },
    Beat {
        member: Member,
    },
    Ack {
        member: Member,
        stage: AckStage,
        version: u64,
    },
    Leave {
        member: Member,
    },
    Lock {
        member: Member,
        version: u64,
    },
    Update {
        member: Member,
        table: usize,
    },
    Unlock {
        member: Member,
        version: u64,
    },
    Says {
        member: Member,
        reply: PlaceReply,
    },
}

/// What an answer of the placement brings to a part of its member; no event if it brings no table event.
#[derive(Drop)]
pub(crate) struct Told {
    pub(crate) member: Member,
    pub(crate) event: Option<PartEvent>,
}

/// What a request makes the placement do, and who asks.
#[derive(Drop)]
pub(crate) struct Asked {
    pub(crate) member: Member,
    pub(crate) event: PlaceEvent,
}

/// A table that was sent and isn't built yet.
#[derive(Clone, Copy)]
pub(crate) struct Wanted {
    pub(crate) space: Space,
    pub(crate) version: u64,
}

/// Where the table of an answer is among those that were sent, and which table it is if it isn't built yet.
#[derive(Clone, Copy)]
pub(crate) struct Spot {
    pub(crate) table: usize,
    pub(crate) pending: Option<Wanted>,
}

/// The request of this number, if there is one.
pub(crate) fn asked_at(
    alloc: Global,
    messages: &[Kept],
    number: u64,
) -> Result<Option<Asked>, OutOfMemory>
    ensures { IfOk result (λ o. (ts : List PlacementTable) → o ≡ asked_of (numbered (messages_in ts messages.now) number)) }
{
    if number == 0 || number > messages.len() as u64 {
        return Ok(None);
    }
    match &messages[number as usize - 1] {
        Kept::Register { host } => {
            let host = host.copy(alloc)?;
            Ok(Some(Asked {
                member: host.member,
                event: PlaceEvent::Register { host },
            }))
        }
        Kept::Beat { member } => Ok(Some(Asked {
            member: *member,
            event: PlaceEvent::Beat { member: *member },
        })),
        Kept::Ack {
            member,
            stage,
            version,
        } => Ok(Some(Asked {
            member: *member,
            event: PlaceEvent::Ack {
                member: *member,
                stage: *stage,
                version: *version,
            },
        })),
        Kept::Leave { member } => Ok(Some(Asked {
            member: *member,
            event: PlaceEvent::Leave { member: *member },
        })),
        _ => Ok(None),
    }
}

/// The answer as it is kept, with its table at this place.
pub(crate) fn kept_answer(member: Member, reply: PlaceReply, table: usize) -> Kept
    ensures { result ≡ kept_answer member reply table }
{
    match reply {
        PlaceReply::Lock { version } => Kept::Lock { member, version },
        PlaceReply::Update { .. } => Kept::Update { member, table },
        PlaceReply::Unlock { version } => Kept::Unlock { member, version },
        _ => Kept::Says { member, reply },
    }
}

/// The version of an Update.
pub(crate) fn updated_version(reply: PlaceReply) -> Option<u64>
    ensures { result ≡ updated_version reply }
{
    match reply {
        PlaceReply::Update { version } => Some(version),
        _ => None,
    }
}

/// Whether the table is that of the space and version.
fn is_wanted(space: &Space, version: u64, table: &Table) -> bool
    ensures { result ≡ is_wanted space.now version (Some table.now) }
{
    table.space() == space && table.version() == version
}

/// Where the table of the space and version is found: it is the last one, or isn't built yet.
pub(crate) fn spot_for(tables: &[Table], space: &Space, version: Option<u64>) -> Spot
    ensures { result ≡ spot_for tables.now space.now version }
{
    let Some(version) = version else {
        return Spot {
            table: 0,
            pending: None,
        };
    };
    let count = tables.len();
    if count > 0 && is_wanted(space, version, &tables[count - 1]) {
        return Spot {
            table: count - 1,
            pending: None,
        };
    }
    Spot {
        table: count,
        pending: Some(Wanted {
            space: *space,
            version,
        }),
    }
}

/// Whether the message is a request.
pub(crate) fn is_request(message: &Kept) -> bool
    ensures { result ≡ is_request message.now }
{
    match message {
        Kept::Register { .. } | Kept::Beat { .. } | Kept::Ack { .. } | Kept::Leave { .. } => true,
        _ => false,
    }
}

/// Whether the event is a Register.
pub(crate) fn is_register(event: &PlaceEvent) -> bool
    ensures { result ≡ is_register event.now }
{
    match event {
        PlaceEvent::Register { .. } => true,
        _ => false,
    }
}

/// Whether the placement ran out of memory.
pub(crate) fn place_wants(reply: PlaceReply) -> bool
    ensures { result ≡ place_wants reply }
{
    match reply {
        PlaceReply::OutOfMemory => true,
        _ => false,
    }
}
