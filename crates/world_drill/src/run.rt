// The whole drill, and what it counts.
ghost use Rattle.std.specs.Prelude.{◌≡◌, ◌<◌, ◌≤◌, ◌^◌, IfOk};
ghost use Rattle.cluster_model.specs.Counts.{begun_turns, over_turns};
ghost use Rattle.cluster_model.specs.World.{ClusterState, opening_cluster};
ghost use Rattle.world_run.specs.Worlds.{view_of};
ghost use Rattle.world_drill.specs.Drill.{drill_settings, drill_events, drill_world, counts_of, AreHonest};

use crate::counts::DrillCounts;
use crate::generator::Generator;
use crate::names::counter;
use crate::play::step;
use actor_names::{OutOfMemory, default_space};
use part_model::{TypeList, TypeSettings};
use std::alloc::Global;
use world_events::WorldSettings;
use world_run::World;

/// How many parts a member has.
const PARTS: u8 = 2;

/// How many turns of one chain may be open at once.
const DEPTH: u32 = 3;

/// The idle time, in milliseconds.
const IDLE_MS: u64 = 3_600_000;

/// The drain time, in milliseconds.
const DRAIN_MS: u64 = 60_000;

/// How the cluster of a drill is set up.
fn settings(alloc: Global) -> Result<WorldSettings, OutOfMemory>
    ensures { IfOk result (λ s. s ≡ drill_settings) }
{
    let mut kinds = Vec::new(alloc);
    kinds.push(TypeSettings {
        kind: counter(alloc)?,
        idle_ms: IDLE_MS,
        drain_ms: DRAIN_MS,
        depth: DEPTH,
    })?;
    Ok(WorldSettings {
        parts: PARTS,
        kinds: TypeList::from_vec(kinds),
        idle_ms: IDLE_MS,
        drain_ms: DRAIN_MS,
    })
}

/// The cluster before the drill.
fn opening(alloc: Global) -> Result<World, OutOfMemory>
    ensures { IfOk result (λ v. v ≡ view_of (opening_cluster drill_settings)) }
{
    let settings = settings(alloc)?;
    Ok(World::new(alloc, settings))
}

/// What is counted of a cluster after `steps` steps.
fn counts(world: &World, steps: u32) -> DrillCounts
    ensures { (w : ClusterState) → view_of w ≡ world.now → begun_turns w.marks < 2 ^ 64 → over_turns w.marks ≤ begun_turns w.marks → result ≡ counts_of steps w }
{
    DrillCounts {
        steps: steps as u64,
        boots: world.boots(),
        messages: world.messages(),
        begun: world.begun(),
        open_turns: world.open_turns(),
        version: world.last_version(&default_space()),
    }
}

/// Runs `steps` steps of a drill: each draws three numbers from the generator of the seed, and by them does at most
/// three events of a cluster with two parts per member. Its only error is out of memory.
pub fn drill(alloc: Global, seed: u64, steps: u32) -> Result<DrillCounts, OutOfMemory>
    ensures counts { IfOk result (λ c. c ≡ counts_of steps (drill_world seed steps)) }
    ensures honest { AreHonest (opening_cluster drill_settings) (drill_events seed steps) }
{
    let mut world = opening(alloc)?;
    let mut generator = Generator::new(seed);
    'steps: for _ in 0..steps {
        step(alloc, &mut world, &mut generator)?;
    }
    Ok(counts(&world, steps))
}
