// A step of a drill: what is picked, and then done.
ghost use Rattle.std.specs.Prelude.{◌≡◌, [], ◌∷◌, IfOk, OnOk};
ghost use Rattle.part_model.specs.Part.{ring_owner};
ghost use Rattle.cluster_model.specs.World.{ClusterState, cluster_step, key_part};
ghost use Rattle.world_run.specs.Worlds.{view_of};
ghost use Rattle.world_drill.specs.Choices.{Plays, accepted, chosen};
ghost use Rattle.world_drill.specs.Drill.{loss_of, closing_of, step_events, third_of};

use crate::choice::Choice;
use crate::generator::Generator;
use crate::pick::pick;
use actor_names::{Member, OutOfMemory};
use std::alloc::Global;
use world_events::{Outcome, WorldError, WorldEvent};
use world_run::World;

/// An event happens; gives its outcome if it isn't refused.
fn happen(
    alloc: Global,
    world: &mut World,
    event: WorldEvent,
) -> Result<Option<Outcome>, OutOfMemory>
    ensures plays { OnOk result (Plays (λ w. event ∷ []) world.old world.new) }
    ensures outcome { IfOk result (λ o. (w : ClusterState) → view_of w ≡ world.old → o ≡ accepted (cluster_step ring_owner key_part w event).outcome) }
{
    match world.step(alloc, event) {
        Ok(outcome) => Ok(Some(outcome)),
        Err(WorldError::OutOfMemory) => Err(OutOfMemory),
        Err(_) => Ok(None),
    }
}

/// Both parts of a member stop, and it is lost.
fn lose(alloc: Global, world: &mut World, member: &Member) -> Result<(), OutOfMemory>
    ensures { OnOk result (Plays (λ w. loss_of member.now) world.old world.new) }
{
    let _ = happen(
        alloc,
        world,
        WorldEvent::Stop {
            member: *member,
            part: 0,
        },
    )?;
    let _ = happen(
        alloc,
        world,
        WorldEvent::Stop {
            member: *member,
            part: 1,
        },
    )?;
    let _ = happen(alloc, world, WorldEvent::Lost { member: *member })?;
    Ok(())
}

/// A part of a member gives up an actor, whose deactivation is then over.
fn give_up(alloc: Global, world: &mut World, member: &Member, part: u64) -> Result<(), OutOfMemory>
    ensures { OnOk result (Plays (λ w. closing_of w part member.now) world.old world.new) }
{
    match happen(
        alloc,
        world,
        WorldEvent::Closing {
            member: *member,
            part,
        },
    )? {
        Some(Outcome::Closing { key }) => {
            let _ = happen(
                alloc,
                world,
                WorldEvent::Closed {
                    member: *member,
                    key,
                },
            )?;
            Ok(())
        }
        _ => Ok(()),
    }
}

/// What was picked is done.
fn play(alloc: Global, world: &mut World, choice: Choice) -> Result<(), OutOfMemory>
    ensures { OnOk result (Plays (λ w. chosen w choice) world.old world.new) }
{
    match choice {
        Choice::Nothing => Ok(()),
        Choice::One { event } => {
            let _ = happen(alloc, world, event)?;
            Ok(())
        }
        Choice::Loss { member } => lose(alloc, world, &member),
        Choice::Ending { member, part } => give_up(alloc, world, &member, part),
    }
}

/// One step, by three draws.
pub(crate) fn step(
    alloc: Global,
    world: &mut World,
    generator: &mut Generator,
) -> Result<(), OutOfMemory>
    ensures drawn { generator.new ≡ third_of generator.old }
    ensures plays { OnOk result (Plays (λ w. step_events w generator.old) world.old world.new) }
{
    let r = generator.draw() % 16;
    let a = generator.draw();
    let b = generator.draw();
    let choice = pick(alloc, world, r, a, b)?;
    play(alloc, world, choice)
}
