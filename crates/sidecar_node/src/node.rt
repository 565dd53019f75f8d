// A sidecar's node and its seats.
ghost use Rattle.std.specs.Prelude.{◌≡◌, ◌≤◌, length};

use call_book::CallBook;
use part_core::Part;
use part_model::TypeList;
use place_table::HostInfo;
use step_gate::{Gate, Seat};
use timer_book::TimerBook;

/// What the threads of a sidecar share: its host, the settings of its actors' types, a gate for each part and for each
/// part's book of timers, and one for the book of the calls that other sidecars forwarded here. A node has 1 to 16 parts.
#[derive(Drop)]
pub struct SidecarNode {
    pub(crate) host: HostInfo,
    pub(crate) kinds: TypeList,
    pub(crate) parts: Vec<Gate<Part>>,
    pub(crate) books: Vec<Gate<TimerBook>>,
    pub(crate) calls: Gate<CallBook>,
    ghost some: { 1 ≤ length parts.items },
    ghost few: { length parts.items ≤ 16 },
    ghost a_book_each: { length books.items ≡ length parts.items },
}

/// One thread's permission to step at the node's gates, and what it knows of them: a seat for each part in order, then
/// one for each book of timers, and last one for the book of forwarded calls. It has no bytes but the lists'.
#[derive(Drop)]
pub struct Seats {
    pub(crate) parts: Vec<Seat<Part>>,
    pub(crate) books: Vec<Seat<TimerBook>>,
    pub(crate) calls: Seat<CallBook>,
}
