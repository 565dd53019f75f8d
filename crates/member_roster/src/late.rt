// Members that were not heard in time.
ghost use Rattle.std.specs.Prelude.{◌≡◌, ◌+◌, ◌-◌, ◌≤◌, nat_le, ◌++◌, List, length, vec_capacity};
ghost use Rattle.place_table.specs.declared.host.HostInfo.{HostInfo};
ghost use Rattle.member_roster.specs.Members.{heard_of, late_of};
ghost use Rattle.member_roster.specs.Places.{Ascends, host_node};
ghost use Rattle.member_roster.specs.Roster.{joined_all, AreBacked};

use crate::list::MemberList;
use crate::marks::Mark;
use place_table::HostInfo;

/// A member is dropped if it was not heard for this many milliseconds.
const SILENCE: u64 = 10_000;

/// Whether a member was not heard in time.
pub(crate) fn is_mark_late(mark: Mark, now: u64) -> bool
    ensures { result ≡ nat_le 10000 (now - mark.heard) }
{
    now.saturating_sub(mark.heard) >= SILENCE
}

/// Drops each member that is late, and adds it to `removed`.
pub(crate) fn drop_late(
    hosts: &mut Vec<HostInfo>,
    marks: &mut Vec<Mark>,
    spares: &mut Vec<Option<HostInfo>>,
    removed: &mut MemberList,
    now: u64,
)
    requires ascends { Ascends host_node hosts.old.items }
    requires marked { length marks.old.items ≡ length hosts.old.items }
    requires spared { length spares.old.items ≡ length hosts.old.items }
    requires capacity { length removed.old.members + length hosts.old.items ≤ removed.old.capacity }
    ensures heard { joined_all hosts.new.items marks.new.items ≡ heard_of (joined_all hosts.old.items marks.old.items) now }
    ensures late { removed.new.members ≡ removed.old.members ++ late_of (joined_all hosts.old.items marks.old.items) now }
    ensures ascends { Ascends host_node hosts.new.items }
    ensures marked { length marks.new.items ≡ length hosts.new.items }
    ensures spared { length spares.new.items ≡ length hosts.new.items }
    ensures backed { (table : List HostInfo) → AreBacked hosts.old.items spares.old.items table → AreBacked hosts.new.items spares.new.items table }
    ensures fewer { length hosts.new.items ≤ length hosts.old.items }
    ensures list_capacity { removed.old.capacity ≤ removed.new.capacity }
    ensures hosts_capacity { vec_capacity hosts.new ≡ vec_capacity hosts.old }
    ensures marks_capacity { vec_capacity marks.new ≡ vec_capacity marks.old }
    ensures spares_capacity { vec_capacity spares.new ≡ vec_capacity spares.old }
{
    let mut at = 0;
    while at < hosts.len() {
        if is_mark_late(marks[at], now) {
            removed.push_reserved(hosts[at].member);
            let _host = hosts.remove(at);
            let _mark = marks.remove(at);
            let _spare = spares.remove(at);
        } else {
            at += 1;
        }
    }
}
