// A session of a standby: the calls of a mirror, made on the standby's own disk and answered.
//
// Promise: each call that is read is made on the disk, in order, and then answered; each end has its cause
// (`specs/Sessions`). A standby that was given the calls of a mirror reads as the mirror's disk after the answered ones, or
// after these and the one under way (`specs/Standbys`). Depends on `standby_core`, `frame_session` (for the pieces of a
// stream and its end), `frame_wire`, `http_edge` (for the words of what went over a connection), `disk_model`,
// `actor_ports` and `lists_and_limits`.
#![tactic(auto)]

mod calls;
mod law;
mod session;
mod taken;

pub use law::{image_law, standby_law};
pub use session::standby_session;
