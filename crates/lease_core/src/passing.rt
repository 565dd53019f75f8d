// The passage of time: clocks go forward, and members whose leases have ended are stopped.
ghost use Rattle.std.specs.Prelude.{◌≡◌, ◌<◌, ◌≤◌, ◌+◌, ◌^◌, ◌-◌, ◌||◌, min, nat_lt, false, length, ℕ, None};
ghost use Rattle.part_model.specs.Part.{ring_owner};
ghost use Rattle.cluster_model.specs.World.{ClusterState, key_part, most_events, cluster_run};
ghost use Rattle.world_run.specs.Worlds.{view_of};
ghost use Rattle.lease_core.specs.Lease.{bad_rate};
ghost use Rattle.lease_core.specs.Book.{moved, is_past, any_past, stops_of, stops_if_ended, stops_for};
ghost use Rattle.lease_core.specs.Books.{book_of};
ghost use Rattle.lease_core.specs.Leased.{LeasedCluster, LeaseView, leased_step, IsLeasedStep, leased_view};
ghost use Rattle.lease_core.specs.declared.event.LeaseEvent.TheVariants as happenings;

use crate::book::{Book, MemberClock};
use crate::error::LeaseError;
use crate::rates::{any_past, bad_rate, is_past};
use actor_names::Member;
use world_events::Outcome;
use world_run::World;

/// The greatest number of events of a world, 2^62.
const MOST_EVENTS: u64 = 1 << 62;

/// Whether a clock would reach the bound of moments.
fn reaches_bound(book: &Book, placement: u64, steps: &[u64]) -> bool
    requires { length steps.now ≡ length book.now.members.items }
    ensures { result ≡ (is_past book.now.clock placement || any_past steps.now book.now.members.items) }
{
    if is_past(book.clock, placement) {
        return true;
    }
    any_past(book.members.as_slice(), steps)
}

/// How many stops there are after these steps of the clocks, if each member has so many parts; 2^64 - 1 if there are
/// more.
fn stops_after(members: &[MemberClock], steps: &[u64], parts: u8) -> u64
    requires lengths { length steps.now ≡ length members.now }
    requires within { any_past steps.now members.now ≡ false }
    ensures { result ≡ min (length (stops_for parts (moved steps.now members.now))) (2 ^ 64 - 1) }
{
    let mut stops: u64 = 0;
    for (at, step) in steps.iter().enumerate() {
        let member = &members[at];
        if member.lease.ended(member.clock.saturating_add(*step)) {
            stops = stops.saturating_add(parts as u64);
        }
    }
    stops
}

/// The members' clocks go forward.
fn move_clocks(members: &mut [MemberClock], steps: &[u64])
    requires lengths { length steps.now ≡ length members.old }
    requires within { any_past steps.now members.old ≡ false }
    ensures { members.new ≡ moved steps.now members.old }
{
    for (at, step) in steps.iter().enumerate() {
        let member = &mut members[at];
        member.clock += *step;
    }
}

/// Gives StopPart to `count` parts of a member, from this number on.
fn stop_parts(world: &mut World, member: &Member, part: u64, count: u8)
    requires { part + count ≤ 256 }
    ensures { (w : ClusterState) → view_of w ≡ world.old → view_of (cluster_run ring_owner key_part w (stops_of member.now part count)) ≡ world.new }
{
    if count == 0 {
        return;
    }
    let _ = world.stop(*member, part);
    stop_parts(world, member, part + 1, count - 1);
}

/// Gives StopPart to every part of a member whose lease has ended.
fn stop_if_ended(world: &mut World, member: &MemberClock, parts: u8)
    ensures { (w : ClusterState) → view_of w ≡ world.old → view_of (cluster_run ring_owner key_part w (stops_if_ended parts member.now)) ≡ world.new }
{
    if !member.lease.ended(member.clock) {
        return;
    }
    stop_parts(world, &member.member, 0, parts);
}

/// Gives StopPart to every part of each member whose lease has ended, in order of boot.
fn stop_ended(world: &mut World, members: &[MemberClock], parts: u8)
    ensures { (w : ClusterState) → view_of w ≡ world.old → view_of (cluster_run ring_owner key_part w (stops_for parts members.now)) ≡ world.new }
{
    for member in members {
        stop_if_ended(world, member, parts);
    }
}

/// Whether a world that has had `count` events has no room for so many stops; a count of stops ends at 2^64 - 1.
fn are_too_many(count: u64, stops: u64) -> bool
    ensures { (all : ℕ) → stops ≡ min all (2 ^ 64 - 1) → result ≡ nat_lt most_events (count + all) }
{
    count.saturating_add(stops) > MOST_EVENTS
}

/// The clocks of the placement and of the members go forward.
fn move_book(book: &mut Book, placement: u64, steps: &[u64])
    requires lengths { length steps.now ≡ length book.old.members.items }
    requires within { (is_past book.old.clock placement || any_past steps.now book.old.members.items) ≡ false }
    ensures { book_of book.new ≡ record (book_of book.old) { clock = book.old.clock + placement; members = moved steps.now book.old.members.items } }
{
    let clock = book.clock + placement;
    book.clock = clock;
    move_clocks(book.members.as_mut_slice(), steps);
}

/// Time passes by steps that are within the rates.
fn pass_rated(
    world: &mut World,
    book: &mut Book,
    placement: u64,
    steps: &[u64],
) -> Result<Option<Outcome>, LeaseError>
    requires { bad_rate placement steps.now (length book.old.members.items) ≡ None }
    ensures { (c : LeasedCluster) → leased_view c ≡ record { world = world.old; book = book_of book.old } → IsLeasedStep result (leased_step ring_owner key_part c (happenings.Pass placement steps.now)) (record { world = world.new; book = book_of book.new }) }
{
    if reaches_bound(book, placement, steps) {
        return Err(LeaseError::Clock);
    }
    let parts = world.settings().parts;
    let stops = stops_after(book.members.as_slice(), steps, parts);
    let count = world.events();
    if are_too_many(count, stops) {
        return Err(LeaseError::Spent { count });
    }
    move_book(book, placement, steps);
    stop_ended(world, book.members.as_slice(), parts);
    Ok(None)
}

/// Time passes: the clocks go forward by these steps, and then every part of each member whose lease has ended is given
/// StopPart. It takes no memory.
pub(crate) fn pass(
    world: &mut World,
    book: &mut Book,
    placement: u64,
    steps: &[u64],
) -> Result<Option<Outcome>, LeaseError>
    ensures { (c : LeasedCluster) → leased_view c ≡ record { world = world.old; book = book_of book.old } → IsLeasedStep result (leased_step ring_owner key_part c (happenings.Pass placement steps.now)) (record { world = world.new; book = book_of book.new }) }
{
    match bad_rate(placement, steps, book.members.len()) {
        Some(at) => Err(LeaseError::BadRate { at }),
        None => pass_rated(world, book, placement, steps),
    }
}
