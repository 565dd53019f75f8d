// What an event of a cluster script does to its world.
ghost use Rattle.std.specs.Prelude.{◌≡◌, List};
ghost use Rattle.world_events.specs.declared.event.WorldEvent.{WorldEvent as Event};
ghost use Rattle.cluster_model.specs.World.{ClusterState};
ghost use Rattle.world_run.specs.Worlds.{view_of};
ghost use Rattle.plain_commands.specs.Scripts.{Setup};
ghost use Rattle.plain_commands.specs.Replay.{cluster_after, cluster_event_step, is_falling};
ghost use Rattle.plain_commands.specs.ReplayTold.{GivesLine};
ghost use Rattle.plain_commands.specs.declared.script.Script.TheVariants.{Cluster};

use crate::line_end::{LineEnd, line_end_of};
use outcome_text::Transcript;
use std::alloc::Global;
use world_events::WorldEvent;
use world_run::World;

/// Whether the event sets a moment before the present one.
fn is_falling(world: &World, event: &WorldEvent) -> bool
    ensures { (w : ClusterState) → world.now ≡ view_of w → result ≡ is_falling w event.now }
{
    match event {
        WorldEvent::At { moment } => *moment < world.now(),
        _ => false,
    }
}

/// Lets an event happen. A wrong call number and a moment before the present one are refused at this column.
pub(crate) fn happen(
    alloc: Global,
    world: &mut World,
    column: u64,
    event: WorldEvent,
    transcript: &mut Transcript,
) -> Result<(), LineEnd>
    ensures { (s : Setup) (events : List Event) → world.old ≡ view_of (cluster_after s events)
        → GivesLine result (cluster_event_step s events column event) (Cluster world.new) transcript.old transcript.new }
{
    if is_falling(world, &event) {
        return Err(LineEnd::Refused { column });
    }
    match world.step(alloc, event) {
        Ok(outcome) => match transcript.add_outcome(&outcome) {
            Ok(()) => Ok(()),
            Err(_) => Err(LineEnd::OutOfMemory),
        },
        Err(error) => Err(line_end_of(error, column)),
    }
}
