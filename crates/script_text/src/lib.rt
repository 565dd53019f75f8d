// The lines of scripts: what a line of either kind says.
//
// Promise: a line is read exactly as `specs/SoloLines` and `specs/ClusterLines` define it, or refused at the column that
// they name. Only a line that makes names may run out of memory. Depends on `world_events`, `place_table`, `actor_names`
// and `memchr`.
#![tactic(auto)]

mod boot_types;
mod cluster;
mod cluster_words;
mod depth;
mod error;
mod first_line;
mod lines;
mod numbers;
mod setting;
mod solo;
mod words;

pub use cluster::{ClusterLine, read_cluster_line};
pub use depth::Depth;
pub use error::LineError;
pub use first_line::read_cluster_setting;
pub use lines::{count_lines, next_line};
pub use setting::Setting;
pub use solo::{SoloLine, read_solo_line};
