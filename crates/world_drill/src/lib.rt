// A drill: events of a cluster that a generator picks, and what their run counts.
//
// Promise: the counts are those of the messages and marks of the cluster's run over the list of events that the seed
// and the number of steps give (`specs/Drill`), and no event of that list declares a running member lost. Depends on
// `world_run` and `cluster_model`.
#![tactic(auto)]

mod choice;
mod counts;
mod generator;
mod names;
mod pick;
mod play;
mod run;

pub use counts::DrillCounts;
pub use run::drill;
