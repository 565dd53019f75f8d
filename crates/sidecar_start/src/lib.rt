// How a sidecar begins, before it binds its ports: the store draws its boot, and its application says what it hosts.
//
// Promise: `start` makes exchanges with the store until one ends, and then with the application until one ends, and no
// others; its answer follows from what the last ones read (`specs/Starting`). The host that it answers fits a Register
// frame, and its depths are those that parts need. Depends on `exchanges`, `app_texts`,
// `frame_wire`, `wire_fields`, `http_edge`, `part_model`, `place_table`, `actor_names` and `actor_ports`.
#![tactic(auto)]

mod booting;
mod configuring;
mod end;
mod fits;
mod hosting;
mod starting;
mod telling;
mod words;

pub use end::StartEnd;
pub use hosting::Started;
pub use starting::start;
pub use telling::tell_end;
pub use words::StartWords;
