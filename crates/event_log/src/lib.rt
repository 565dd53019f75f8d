// The log of a server: what it has to say to whoever runs it, one line an event.
//
// Promise: the text of a line is the one of `specs/Lines`, byte for byte; a line is said in place, without memory, and no
// call waits for another thread. A line that finds no room is counted. What the log contains is said by no clause, since
// other threads say lines too. Depends on `call_names`, `schedule_text`, `actor_names` and `lists_and_limits`.
#![tactic(auto)]

mod batch;
mod log;
mod notice;
mod stamp;
mod text;

pub use batch::{Batch, Line, MOST_LINES};
pub use log::EventLog;
pub use notice::{Dismissal, Notice, Peer};
pub use text::{push_line, push_lost};
