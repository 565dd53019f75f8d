// One room of a placement: which members exist, and the rounds of lock, update and unlock that spread each table.
//
// Promise: each call of a `Room` follows the state machine of `specs/Room`, with the record of each step that a restart
// needs (`specs/Records`). Depends on `member_roster`, `place_table` and `actor_names`.
#![tactic(auto)]

mod admission;
mod event;
mod law;
mod phase;
mod record;
mod replay;
mod restore;
mod room;
mod rounds;

pub use event::{PlaceEvent, PlaceReply};
pub use law::{memory_law, refused_law, restore_law, room_sound_law, settled_law, table_law};
pub use member_roster::{Known, Mark, MemberList};
pub use phase::RoundPhase;
pub use place_table::AckStage;
pub use record::RoomRecord;
pub use replay::RoomReplay;
pub use restore::RestoreError;
pub use room::Room;
