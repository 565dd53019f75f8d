// The clocks and leases of a world's members, and who sent which request when.
ghost use Rattle.std.specs.Prelude.{◌≡◌, ◌<◌, ◌^◌, length};
ghost use Rattle.lease_core.specs.Book.{new_book, clock_of, sent_at, asked_at, place_of, is_placements, moment_of, sent_by};
ghost use Rattle.lease_core.specs.Leased.{is_at};
ghost use Rattle.lease_core.specs.Books.{book_of};

use crate::lease::Lease;
use actor_names::Member;
use std::alloc::Global;
use world_events::WorldEvent;

/// A member, its clock in milliseconds since its boot, and its lease by that clock.
#[derive(Drop)]
pub(crate) struct MemberClock {
    pub(crate) member: Member,
    pub(crate) clock: u64,
    pub(crate) lease: Lease,
}

/// The boot of the member whose request a message is or answers, and when that request was sent, by the member's clock.
#[derive(Clone, Copy)]
pub(crate) struct Sent {
    pub(crate) boot: u64,
    pub(crate) moment: u64,
}

/// The placement's clock, the members in order of boot, a `Sent` for each message, and for each call the boot of the
/// member that it asks.
#[derive(Drop)]
pub(crate) struct Book {
    pub(crate) clock: u64,
    pub(crate) members: Vec<MemberClock>,
    pub(crate) sent: Vec<Sent>,
    pub(crate) askers: Vec<u64>,
}

/// Whether the event sets the moment.
pub(crate) fn is_at(event: &WorldEvent) -> bool
    ensures { result ≡ is_at event.now }
{
    match event {
        WorldEvent::At { .. } => true,
        _ => false,
    }
}

/// Whether the event is one of the placement's own.
fn is_placements(event: &WorldEvent) -> bool
    ensures { result ≡ is_placements event.now }
{
    match event {
        WorldEvent::To { .. }
        | WorldEvent::Lost { .. }
        | WorldEvent::PlacementTick
        | WorldEvent::Restart => true,
        _ => false,
    }
}

impl Book {
    /// All clocks begin at 0, and nothing has happened.
    pub(crate) fn new(alloc: Global) -> Book
        ensures { book_of result ≡ new_book }
    {
        Book {
            clock: 0,
            members: Vec::new(alloc),
            sent: Vec::new(alloc),
            askers: Vec::new(alloc),
        }
    }

    /// The clock of the member of this boot, 0 if there is none.
    fn clock_of(&self, boot: u64) -> u64
        ensures { result ≡ clock_of self.now.members.items boot }
    {
        if boot == 0 || boot > self.members.len() as u64 {
            return 0;
        }
        let member = &self.members[boot as usize - 1];
        member.clock
    }

    /// Whose request this message is or answers.
    pub(crate) fn sent_at(&self, message: u64) -> Sent
        ensures { result ≡ sent_at self.now.sent.items message }
    {
        if message == 0 || message > self.sent.len() as u64 {
            return Sent { boot: 0, moment: 0 };
        }
        self.sent[message as usize - 1]
    }

    /// The boot of the member that this call asks, 0 if there is no such call.
    fn asked_at(&self, call: u64) -> u64
        ensures { result ≡ asked_at self.now.askers.items call }
    {
        if call == 0 || call > self.askers.len() as u64 {
            return 0;
        }
        self.askers[call as usize - 1]
    }

    /// The boot of the member at which the event happens, 0 for the placement's.
    pub(crate) fn place_of(&self, event: &WorldEvent) -> u64
        ensures { result ≡ place_of (book_of self.now) event.now }
    {
        match event {
            WorldEvent::At { .. } => 0,
            WorldEvent::Boot { .. } => self.members.len() as u64 + 1,
            WorldEvent::Beat { member } => member.boot,
            WorldEvent::Collect { member } => member.boot,
            WorldEvent::Leave { member } => member.boot,
            WorldEvent::To { .. } => 0,
            WorldEvent::Part { message, .. } => self.sent_at(*message).boot,
            WorldEvent::Call { member, .. } => member.boot,
            WorldEvent::Poll { call } => self.asked_at(*call),
            WorldEvent::End { call } => self.asked_at(*call),
            WorldEvent::Hold { member, .. } => member.boot,
            WorldEvent::Release { member, .. } => member.boot,
            WorldEvent::Tick { member } => member.boot,
            WorldEvent::Closing { member, .. } => member.boot,
            WorldEvent::Closed { member, .. } => member.boot,
            WorldEvent::Stop { member, .. } => member.boot,
            WorldEvent::Lost { .. } => 0,
            WorldEvent::PlacementTick => 0,
            WorldEvent::Restart => 0,
        }
    }

    /// The moment of the event: by the placement's clock for its own events, by the member's clock otherwise.
    pub(crate) fn moment_of(&self, event: &WorldEvent) -> u64
        ensures { result ≡ moment_of (book_of self.now) event.now }
    {
        if is_placements(event) {
            return self.clock;
        }
        self.clock_of(self.place_of(event))
    }

    /// What is kept of the message that the event adds.
    pub(crate) fn sent_by(&self, event: &WorldEvent) -> Sent
        ensures { result ≡ sent_by (book_of self.now) event.now }
    {
        match event {
            WorldEvent::To { message } => self.sent_at(*message),
            _ => Sent {
                boot: self.place_of(event),
                moment: self.moment_of(event),
            },
        }
    }
}
