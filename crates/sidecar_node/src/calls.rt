// One step at the gate of a part or of a book.
ghost use Rattle.std.specs.Prelude.{◌≡◌, ◌≢◌, ◌<◌, ◌≤◌, ℕ, length, slice_get};
ghost use Rattle.part_model.specs.Rooms.{IsInRange};
ghost use Rattle.sidecar_node.specs.Entries.{StepsAt, one_entry};
ghost use Rattle.sidecar_node.specs.Nodes.{part_gates, part_seats, book_seats, calls_seat, part_at, host_of, IsSeatsOf, ActsAt, ActsAtBook, ActsAtCalls, SpentAt, SpentAtBook, SpentAtCalls};

use crate::node::{Seats, SidecarNode};
use crate::rows::call_row;
use actor_names::ActorKey;
use call_book::{BookEvent, BookReply};
use part_core::PartReply;
use part_model::PartEvent;
use place_table::{HostInfo, part_of};
use std::sync::Wait;
use step_gate::Spent;
use timer_book::{TimerEvent, TimerReply};

impl SidecarNode {
    /// The host whose node this is.
    pub fn host(&self) -> &HostInfo
        ensures { result.now ≡ host_of self.now }
    {
        &self.host
    }

    /// How many parts the node has, from 1 to 16. It has as many books.
    pub fn parts(&self) -> usize
        ensures many { result ≡ length (part_gates self.now) }
        ensures some { 1 ≤ result }
        ensures few { result ≤ 16 }
    {
        self.parts.len()
    }

    /// The number of the part in which the actor lives, and of its book.
    pub fn part_of(&self, key: &ActorKey) -> usize
        ensures part { result ≡ part_at self.now key.now }
        ensures inside { result < length (part_gates self.now) }
    {
        let parts = self.parts.len() as u8;
        part_of(&key.id, parts) as usize
    }

    /// One step on this part.
    pub(crate) fn call_part<R: Wait>(
        &self,
        rt: &R,
        seats: &mut Seats,
        part: usize,
        event: PartEvent,
    ) -> Result<PartReply, Spent>
        requires seats { IsSeatsOf self.now seats.old }
        requires inside { part < length (part_gates self.now) }
        requires event { IsInRange event }
        ensures seats { IsSeatsOf self.now seats.new }
        ensures steps { StepsAt part event result (part_seats seats.old) (part_seats seats.new) }
        ensures others { (book_seats seats.new ≡ book_seats seats.old) × (calls_seat seats.new ≡ calls_seat seats.old) }
    {
        call_row(rt, &self.parts, &mut seats.parts, part, event)
    }

    /// Gives this part the event, once, and answers its reply. `Spent` comes exactly if the part's gate took no further
    /// entry. No other part and no book gets an entry. A version in the event must be at most 2^62.
    pub fn step_part<R: Wait>(
        &self,
        rt: &R,
        seats: &mut Seats,
        part: usize,
        event: PartEvent,
    ) -> Result<PartReply, Spent>
        requires seats { IsSeatsOf self.now seats.old }
        requires inside { part < length (part_gates self.now) }
        requires event { IsInRange event }
        ensures seats { IsSeatsOf self.now seats.new }
        ensures entry { ActsAt part (one_entry event result) seats.old seats.new }
        ensures spent { SpentAt part result seats.new }
    {
        self.call_part(rt, seats, part, event)
    }

    /// The same for the book of timers with this number.
    pub fn step_book<R: Wait>(
        &self,
        rt: &R,
        seats: &mut Seats,
        book: usize,
        event: TimerEvent,
    ) -> Result<TimerReply, Spent>
        requires seats { IsSeatsOf self.now seats.old }
        requires inside { book < length (part_gates self.now) }
        ensures seats { IsSeatsOf self.now seats.new }
        ensures entry { ActsAtBook book (one_entry event result) seats.old seats.new }
        ensures spent { SpentAtBook book result seats.new }
    {
        call_row(rt, &self.books, &mut seats.books, book, event)
    }

    /// The same for the book of forwarded calls.
    pub fn step_calls<R: Wait>(
        &self,
        rt: &R,
        seats: &mut Seats,
        event: BookEvent,
    ) -> Result<BookReply, Spent>
        requires { IsSeatsOf self.now seats.old }
        ensures seats { IsSeatsOf self.now seats.new }
        ensures entry { ActsAtCalls (one_entry event result) seats.old seats.new }
        ensures spent { SpentAtCalls result seats.new }
    {
        self.calls.call_in(rt, &mut seats.calls, event)
    }
}
