// The part of a step that has to be on the disk.
use member_roster::MemberList;
use place_table::HostInfo;

/// The part of a step that has to be on the disk before its reply goes out.
#[derive(Drop)]
pub struct RoomRecord {
    /// The host that joined.
    pub joined: Option<HostInfo>,
    /// The members that were removed; they were removed before the host joined.
    pub removed: MemberList,
    /// The next version after the step.
    pub next_version: u64,
}
