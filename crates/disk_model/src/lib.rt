// A disk as a journal sees it, and what a crash may leave of it.
//
// A disk that reports its state follows one state machine of plain data: what a read gives, what a crash
// now may leave, and every moment before. The disk in memory reports all of it; the disk over a file reports
// nothing, and is trusted and tested. It depends on actor_ports for the error of the outside.
#![tactic(auto)]

mod change;
mod disk;
mod file;
mod law;
mod memory;
mod past;
mod torn;

pub use change::Change;
pub use disk::Disk;
pub use file::FileDisk;
pub use law::image_law;
pub use memory::MemDisk;
pub use past::Past;
