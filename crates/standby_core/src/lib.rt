// A standby of the placement: a disk whose calls are also made at the other end of a link, each answered before the call
// is.
//
// Promise: what a mirror answers as done stands on both disks. It sends the calls that its disk has done, in order, in
// pieces that a frame holds, and waits for the answer of each (`specs/Telling`, `specs/Mirrors`); the other disk reads as
// the mirror's own after the calls that were answered, or after these and the one under way (`specs/Replicas`). Depends on
// `disk_model`, `frame_wire`, `http_edge` (for the words of what went over a connection), `actor_ports` and
// `lists_and_limits`.
#![tactic(auto)]

mod attach;
mod call;
mod hear;
mod law;
mod mirror;
mod replica;
mod wire;

pub use call::MirrorCall;
pub use law::attach_law;
pub use mirror::Mirror;
pub use wire::Wire;
