// Where a call stands.
use actors_api::ApiReply;
use place_table::HostInfo;

/// Where a call stands after a part or another sidecar has replied to it.
#[derive(Drop)]
pub enum Next {
    /// It is answered.
    Answered { reply: ApiReply },
    /// By the table of this version the actor belongs to this host.
    Moves { version: u64, owner: HostInfo },
}
