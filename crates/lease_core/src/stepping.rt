// What comes of an event: of one of the world, by the clock of the placement or of the member at which it happens, of an
// answer, and of a pass.
ghost use Rattle.std.specs.Prelude.{◌≡◌};
ghost use Rattle.part_model.specs.Part.{ring_owner};
ghost use Rattle.cluster_model.specs.World.{key_part};
ghost use Rattle.lease_core.specs.Book.{leases_extended};
ghost use Rattle.lease_core.specs.Books.{book_of};
ghost use Rattle.lease_core.specs.Leased.{LeasedCluster, LeaseView, leased_step, GivesLeased, IsLeasedStep, leased_view, is_reply};
ghost use Rattle.world_run.specs.Looks.{asks_at};
ghost use Rattle.lease_core.specs.declared.event.LeaseEvent.TheVariants as happenings;

use crate::book::{Book, MemberClock, Sent, is_at};
use crate::error::LeaseError;
use crate::event::LeaseEvent;
use crate::passing::pass;
use std::alloc::Global;
use world_events::{Outcome, WorldEvent};
use world_run::World;

/// The event happens at its moment.
fn happen(
    alloc: Global,
    world: &mut World,
    book: &mut Book,
    event: WorldEvent,
) -> Result<Option<Outcome>, LeaseError>
    ensures { (c : LeasedCluster) → leased_view c ≡ record { world = world.old; book = book_of book.old } → GivesLeased result (record { world = world.old; book = book_of book.old }) (leased_step ring_owner key_part c (happenings.Step event)) (record { world = world.new; book = book_of book.new }) }
{
    if is_at(&event) {
        return Err(LeaseError::HasAt);
    }
    let boot = book.place_of(&event);
    let moment = book.moment_of(&event);
    let sent = book.sent_by(&event);
    let begun = book.begun_by(&event);
    book.reserve()?;
    let outcome = world.step_at(alloc, event, moment)?;
    book.note(world, begun, sent, boot);
    Ok(Some(outcome))
}

/// Whether the message is there and is a reply.
fn is_reply(world: &World, message: u64) -> bool
    ensures { result ≡ is_reply (asks_at world.now.messages message) }
{
    match world.asks(message) {
        None => false,
        Some(asks) => !asks,
    }
}

/// Extends the lease of the member whose request was answered by the sending moment of that request.
fn extend_lease(members: &mut [MemberClock], sent: Sent)
    ensures { members.new ≡ leases_extended members.old sent }
{
    if sent.boot == 0 || sent.boot > members.len() as u64 {
        return;
    }
    let member = &mut members[sent.boot as usize - 1];
    member.lease.answered(sent.moment);
}

/// The same in a book.
fn extend_in(book: &mut Book, sent: Sent)
    ensures { book_of book.new ≡ record (book_of book.old) { members = leases_extended book.old.members.items sent } }
{
    extend_lease(book.members.as_mut_slice(), sent);
}

/// An answer of the placement reaches its member, whose lease it extends. It takes no memory.
fn answer(world: &World, book: &mut Book, message: u64) -> Result<Option<Outcome>, LeaseError>
    ensures { (c : LeasedCluster) → leased_view c ≡ record { world = world.now; book = book_of book.old } → IsLeasedStep result (leased_step ring_owner key_part c (happenings.Answer message)) (record { world = world.now; book = book_of book.new }) }
{
    if !is_reply(world, message) {
        return Err(LeaseError::NoReply);
    }
    let sent = book.sent_at(message);
    extend_in(book, sent);
    Ok(None)
}

/// What comes of an event, in the world and in the book.
pub(crate) fn step_both(
    alloc: Global,
    world: &mut World,
    book: &mut Book,
    event: LeaseEvent,
) -> Result<Option<Outcome>, LeaseError>
    ensures { (c : LeasedCluster) → leased_view c ≡ record { world = world.old; book = book_of book.old } → GivesLeased result (record { world = world.old; book = book_of book.old }) (leased_step ring_owner key_part c event) (record { world = world.new; book = book_of book.new }) }
{
    match event {
        LeaseEvent::Pass { placement, members } => {
            pass(world, book, placement, members.as_slice())
        }
        LeaseEvent::Step { event } => happen(alloc, world, book, event),
        LeaseEvent::Answer { message } => answer(world, book, message),
    }
}
