// What a step of a drill does.
use actor_names::Member;
use world_events::WorldEvent;

/// What a step of a drill does.
#[derive(Drop)]
pub(crate) enum Choice {
    /// Nothing.
    Nothing,
    /// One event.
    One { event: WorldEvent },
    /// The member's parts stop, and it is lost.
    Loss { member: Member },
    /// A part of the member gives up an actor, whose deactivation is then over.
    Ending { member: Member, part: u64 },
}
