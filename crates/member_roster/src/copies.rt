// The second copy of each host: in the table that was fixed last, or spare.
ghost use Rattle.std.specs.Prelude.{◌≡◌, ◌<◌, ◌≤◌, ◌↔◌, ◌∷◌, ◌++◌, [], List, None, Some, IsTrue, IsSome, length, slice_set, vec_capacity};
ghost use Rattle.std.specs.List.{slice_index_or};
ghost use Rattle.place_table.specs.declared.host.HostInfo.{HostInfo};
ghost use Rattle.member_roster.specs.Members.{target_hosts};
ghost use Rattle.member_roster.specs.Places.{Ascends, host_node};
ghost use Rattle.member_roster.specs.Roster.{joined_all, AreBacked, AreSpare};

use crate::marks::Mark;
use crate::reserved::push_reserved;
use crate::search::host_place;
use place_table::HostInfo;

/// A copy that was in the table is spare again if its host is still a member.
fn give_back(hosts: &[HostInfo], spares: &mut Vec<Option<HostInfo>>, copy: HostInfo)
    requires ascends { Ascends host_node hosts.now }
    requires long { length spares.old.items ≡ length hosts.now }
    ensures backed { (rest : List HostInfo) → AreBacked hosts.now spares.old.items (rest ++ copy ∷ []) → AreBacked hosts.now spares.new.items rest }
    ensures long { length spares.new.items ≡ length spares.old.items }
    ensures capacity { vec_capacity spares.new ≡ vec_capacity spares.old }
{
    match host_place(hosts, &copy.member.node) {
        Ok(at) => {
            if copy == hosts[at] {
                spares[at] = Some(copy);
            }
        }
        Err(_) => {}
    }
}

/// Takes the table apart: each host's copy is spare again.
pub(crate) fn give_back_all(
    hosts: &[HostInfo],
    spares: &mut Vec<Option<HostInfo>>,
    table: &mut Vec<HostInfo>,
)
    requires ascends { Ascends host_node hosts.now }
    requires long { length spares.old.items ≡ length hosts.now }
    requires backed { AreBacked hosts.now spares.old.items table.old.items }
    ensures table { table.new.items ≡ [] }
    ensures spares { AreSpare hosts.now spares.new.items }
    ensures capacity { vec_capacity table.new ≡ vec_capacity table.old }
    ensures spares_capacity { vec_capacity spares.new ≡ vec_capacity spares.old }
{
    while let Some(copy) = table.pop() {
        give_back(hosts, spares, copy);
    }
}

/// Takes the spare copy at a place.
fn take_spare(spares: &mut Vec<Option<HostInfo>>, at: usize) -> HostInfo
    requires place { at < length spares.old.items }
    requires spare { IsSome (slice_index_or spares.old.items at None) }
    ensures value { slice_index_or spares.old.items at None ≡ Some result }
    ensures rest { spares.new.items ≡ slice_set spares.old.items at None }
    ensures capacity { vec_capacity spares.new ≡ vec_capacity spares.old }
{
    let place = &mut spares[at];
    match place.take() {
        Some(copy) => copy,
        None => unreachable!(),
    }
}

/// Makes the table of the targets' hosts.
pub(crate) fn fix_table(
    hosts: &[HostInfo],
    marks: &[Mark],
    spares: &mut Vec<Option<HostInfo>>,
    table: &mut Vec<HostInfo>,
)
    requires ascends { Ascends host_node hosts.now }
    requires marked { length marks.now ≡ length hosts.now }
    requires long { length spares.old.items ≡ length hosts.now }
    requires backed { AreBacked hosts.now spares.old.items table.old.items }
    requires capacity { length hosts.now ≤ vec_capacity table.old }
    ensures table { table.new.items ≡ target_hosts (joined_all hosts.now marks.now) }
    ensures backed { AreBacked hosts.now spares.new.items table.new.items }
    ensures long { length spares.new.items ≡ length hosts.now }
    ensures capacity { vec_capacity table.old ≤ vec_capacity table.new }
    ensures spares_capacity { vec_capacity spares.new ≡ vec_capacity spares.old }
{
    give_back_all(hosts, spares, table);
    for i in 0..hosts.len() {
        if marks[i].target {
            let copy = take_spare(spares, i);
            push_reserved(table, copy);
        }
    }
}
