// A room that is read from its records, one after the other.
ghost use Rattle.std.specs.Prelude.{◌≡◌, ◌≤◌, Some, None, IfOk, if◌then◌else◌};
ghost use Rattle.round_core.specs.Room.{new_room};
ghost use Rattle.round_core.specs.Records.{record_of, after_record};
ghost use Rattle.round_core.specs.Sound.{IsRoomSound};

use crate::record::RoomRecord;
use crate::restore::apply_record;
use crate::rounds::Rounds;
use actor_names::OutOfMemory;
use member_roster::MemberList;
use std::alloc::Global;
use std::marker::Model;

/// A room that is read from its records. It isn't a `Room` until its restart: after a good record there may be members,
/// though no round has started.
#[derive(Drop)]
pub struct RoomReplay {
    alloc: Global,
    rounds: Rounds,
    removed: MemberList,
}

impl Model for RoomReplay {
    ghost use Rattle.std.specs.Prelude.{◌≤◌};
    ghost use Rattle.round_core.specs.Room.{RoomState};
    ghost use Rattle.round_core.specs.Sound.{IsRoomSound};

    ghost Value = { RoomState };

    ghost view = { λ a. a.rounds.state };

    ghost invariant = { λ a. (a.rounds.capacity ≤ a.removed.capacity) × IsRoomSound a.rounds.state };
}

impl RoomReplay {
    /// The opening state, before the first record. It takes no memory.
    pub fn new(alloc: Global) -> RoomReplay
        ensures { result ≡ new_room }
    {
        RoomReplay {
            alloc,
            rounds: Rounds::new(alloc),
            removed: MemberList::from_vec(Vec::new(alloc)),
        }
    }

    /// Follows the next record, and says whether it is a good one. After a bad one, and after `OutOfMemory`, nothing is
    /// said of the state.
    pub fn follow(&mut self, record_: &RoomRecord) -> Result<bool, OutOfMemory>
        ensures { IfOk result (λ good. after_record self.old (record_of record_.now) ≡ (if good then Some self.new else None)) }
    {
        apply_record(self.alloc, &mut self.rounds, &mut self.removed, record_)
    }

    /// The members, boots and version, and a list with room for all members.
    pub(crate) fn into_parts(self) -> (Global, Rounds, MemberList)
        ensures state { result.1.state ≡ self }
        ensures sound { IsRoomSound result.1.state }
        ensures capacity { result.1.capacity ≤ result.2.capacity }
    {
        (self.alloc, self.rounds, self.removed)
    }
}
