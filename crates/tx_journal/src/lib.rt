// A journal: payloads in a file, each on the disk before its append is answered.
#![tactic(auto)]

mod batch;
mod compaction;
mod error;
mod find;
mod format;
mod journal;
mod kind;
mod law;
mod make;
mod open;
mod pair;
mod record;
mod scan;
mod staged;
mod survey;
mod window;

pub use batch::Batch;
pub use error::JournalError;
pub use format::Format;
pub use journal::Journal;
pub use law::run_law;
pub use staged::Staged;
