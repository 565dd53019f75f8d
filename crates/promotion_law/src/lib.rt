// What holds of a placement that is opened on a standby's file.
//
// Promise: whatever the standby's file reads as, and whatever a crash of the standby leaves of it, opens as the restart of
// the placement: between two steps behind every step that was done; while a step or the placement's own opening is under
// way, wherever its calls are cut off, before it or with it. It is refused only by the disk, for want of memory, or if the
// record of the restart has no room. No code runs here. Depends on `standby_session`, `placement_node` and the crates
// below them.
#![tactic(auto)]

mod law;

pub use law::promotion_law;
