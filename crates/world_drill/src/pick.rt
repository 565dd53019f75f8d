// What a step of a drill picks, by its three draws.
ghost use Rattle.std.specs.Prelude.{◌≡◌, ◌%◌, ◌<◌, ◌∷◌, [], ◌==◌, if◌then◌else◌, IfOk};
ghost use Rattle.cluster_model.specs.World.{ClusterState};
ghost use Rattle.world_run.specs.Worlds.{view_of};
ghost use Rattle.world_drill.specs.Choices.{chosen};
ghost use Rattle.world_drill.specs.Drill.{member_numbered, at_member, call_numbered, at_call, delivery, boot_of, loss_of, call_of, closing_of, picked};

use crate::choice::Choice;
use crate::names::{chain_of, counter, key_of, node_of};
use actor_names::{Member, OutOfMemory, default_space};
use place_table::ActorTypes;
use std::alloc::Global;
use world_events::WorldEvent;
use world_run::World;

/// The greatest number of members that are booted.
const MOST_BOOTS: u64 = 64;

/// How many of the last messages are delivered.
const LAST_MESSAGES: u64 = 8;

/// The member of this number, which wraps around after the last one.
fn member_numbered(world: &World, n: u64) -> Option<Member>
    ensures { (w : ClusterState) → view_of w ≡ world.now → result ≡ member_numbered w n }
{
    let boots = world.boots();
    if boots == 0 {
        return None;
    }
    world.member(n % boots)
}

/// A node starts, if there may be more members.
fn boot(alloc: Global, world: &World, a: u64) -> Result<Choice, OutOfMemory>
    ensures { IfOk result (λ c. (w : ClusterState) → view_of w ≡ world.now → chosen w c ≡ boot_of w a) }
{
    if world.boots() >= MOST_BOOTS {
        return Ok(Choice::Nothing);
    }
    let mut kinds = Vec::new(alloc);
    kinds.push(counter(alloc)?)?;
    Ok(Choice::One {
        event: WorldEvent::Boot {
            space: default_space(),
            node: node_of(a),
            kinds: ActorTypes::from_vec(kinds),
        },
    })
}

/// A member asks what there is to do.
fn beat(world: &World, n: u64) -> Choice
    ensures { (w : ClusterState) → view_of w ≡ world.now → chosen w result ≡ at_member w n (λ m. WorldEvent.Beat m ∷ []) }
{
    match member_numbered(world, n) {
        None => Choice::Nothing,
        Some(member) => Choice::One {
            event: WorldEvent::Beat { member },
        },
    }
}

/// A member acknowledges what its parts have reached.
fn collect(world: &World, n: u64) -> Choice
    ensures { (w : ClusterState) → view_of w ≡ world.now → chosen w result ≡ at_member w n (λ m. WorldEvent.Collect m ∷ []) }
{
    match member_numbered(world, n) {
        None => Choice::Nothing,
        Some(member) => Choice::One {
            event: WorldEvent::Collect { member },
        },
    }
}

/// One time in eight a member is lost, else it acknowledges.
fn lose_or_collect(world: &World, a: u64, b: u64) -> Choice
    ensures { (w : ClusterState) → view_of w ≡ world.now →
        chosen w result ≡ at_member w b (λ m. (if a % 8 == 0 then loss_of m else WorldEvent.Collect m ∷ [])) }
{
    if a % 8 != 0 {
        return collect(world, b);
    }
    match member_numbered(world, b) {
        None => Choice::Nothing,
        Some(member) => Choice::Loss { member },
    }
}

/// One time in sixteen the placement is restarted, else a member asks what there is to do.
fn restart_or_beat(world: &World, a: u64, b: u64) -> Choice
    ensures { (w : ClusterState) → view_of w ≡ world.now →
        chosen w result ≡ (if a % 16 == 0 then WorldEvent.Restart ∷ [] else at_member w b (λ m. WorldEvent.Beat m ∷ [])) }
{
    if a % 16 == 0 {
        return Choice::One {
            event: WorldEvent::Restart,
        };
    }
    beat(world, b)
}

/// A part of a member gives up an actor.
fn give_up(world: &World, a: u64, b: u64) -> Choice
    ensures { (w : ClusterState) → view_of w ≡ world.now → chosen w result ≡ at_member w a (closing_of w (b % 2)) }
{
    match member_numbered(world, a) {
        None => Choice::Nothing,
        Some(member) => Choice::Ending {
            member,
            part: b % 2,
        },
    }
}

/// One of the last messages is delivered.
fn deliver(world: &World, a: u64, b: u64) -> Choice
    ensures { (w : ClusterState) → view_of w ≡ world.now → chosen w result ≡ delivery w a b }
{
    let count = world.messages();
    if count == 0 {
        return Choice::Nothing;
    }
    let message = count - a % count.min(LAST_MESSAGES);
    match world.asks(message) {
        None => Choice::Nothing,
        Some(true) => Choice::One {
            event: WorldEvent::To { message },
        },
        Some(false) => Choice::One {
            event: WorldEvent::Part {
                message,
                part: b % 2,
            },
        },
    }
}

/// An actor is called at a member.
fn ask(alloc: Global, world: &World, a: u64, b: u64) -> Result<Choice, OutOfMemory>
    ensures { IfOk result (λ c. (w : ClusterState) → view_of w ≡ world.now → chosen w c ≡ at_member w a (call_of w b)) }
{
    let Some(member) = member_numbered(world, a) else {
        return Ok(Choice::Nothing);
    };
    Ok(Choice::One {
        event: WorldEvent::Call {
            call: world.next_call(),
            member,
            key: key_of(alloc, b)?,
            least: 0,
            chain: Some(chain_of(alloc, b)?),
        },
    })
}

/// The number of a call that was made, if there is one.
fn call_numbered(world: &World, n: u64) -> Option<u64>
    ensures { (w : ClusterState) → view_of w ≡ world.now → result ≡ call_numbered w n }
{
    let calls = world.next_call() - 1;
    if calls == 0 {
        return None;
    }
    Some(1 + n % calls)
}

/// A call's turn is over.
fn end(world: &World, n: u64) -> Choice
    ensures { (w : ClusterState) → view_of w ≡ world.now → chosen w result ≡ at_call w n (λ call. WorldEvent.End call) }
{
    match call_numbered(world, n) {
        None => Choice::Nothing,
        Some(call) => Choice::One {
            event: WorldEvent::End { call },
        },
    }
}

/// Somebody asks what state a call is in.
fn poll(world: &World, n: u64) -> Choice
    ensures { (w : ClusterState) → view_of w ≡ world.now → chosen w result ≡ at_call w n (λ call. WorldEvent.Poll call) }
{
    match call_numbered(world, n) {
        None => Choice::Nothing,
        Some(call) => Choice::One {
            event: WorldEvent::Poll { call },
        },
    }
}

/// What a step does, by its three draws, the first modulo 16.
pub(crate) fn pick(
    alloc: Global,
    world: &World,
    r: u64,
    a: u64,
    b: u64,
) -> Result<Choice, OutOfMemory>
    requires { r < 16 }
    ensures { IfOk result (λ c. (w : ClusterState) → view_of w ≡ world.now → chosen w c ≡ picked w r a b) }
{
    match r {
        0 => boot(alloc, world, a),
        1 => Ok(lose_or_collect(world, a, b)),
        2 => Ok(restart_or_beat(world, a, b)),
        3 | 4 => Ok(beat(world, a)),
        5 | 6 => Ok(collect(world, a)),
        7..=10 => Ok(deliver(world, a, b)),
        11 | 12 => ask(alloc, world, a, b),
        13 => Ok(end(world, a)),
        14 => Ok(give_up(world, a, b)),
        _ => Ok(poll(world, a)),
    }
}
