// Adds a host to the members, with all the room that this needs.
ghost use Rattle.std.specs.Prelude.{◌≡◌, ◌≤◌, None, false, OnOk, OnErr};
ghost use Rattle.member_roster.specs.Members.{of_node};
ghost use Rattle.round_core.specs.Room.{is_full, with_joined};

use crate::rounds::Rounds;
use actor_names::OutOfMemory;
use member_roster::MemberList;
use place_table::HostInfo;
use std::alloc::Global;

/// Adds a host; its second copy, and the room to remove it and all others, are made first.
pub(crate) fn admit(
    alloc: Global,
    rounds: &mut Rounds,
    removed: &mut MemberList,
    host: HostInfo,
    now: u64,
) -> Result<(), OutOfMemory>
    requires capacity { rounds.old.capacity ≤ removed.old.capacity }
    requires places { is_full rounds.old.state host.member.node ≡ false }
    requires free { of_node rounds.old.state.members host.member.node ≡ None }
    ensures ok { OnOk result (rounds.new.state ≡ with_joined rounds.old.state host now) }
    ensures err { OnErr result (rounds.new.state ≡ rounds.old.state) }
    ensures removed { removed.new.members ≡ removed.old.members }
    ensures capacity { rounds.new.capacity ≤ removed.new.capacity }
{
    let spare = host.copy(alloc)?;
    let wanted = rounds.len() as usize + 1;
    removed.reserve(wanted)?;
    rounds.reserve()?;
    rounds.join(host, spare, now)?;
    Ok(())
}
