// The settings of a cluster script, before its first event opens its world.
ghost use Rattle.std.specs.Prelude.{◌≡◌, ◌≤◌, [], map, OnOk};
ghost use Rattle.cluster_model.specs.World.{opening_cluster};
ghost use Rattle.world_run.specs.Worlds.{view_of};
ghost use Rattle.solo_run.specs.World.{has_depth};
ghost use Rattle.script_text.specs.LinesTold.{setting_told};
ghost use Rattle.plain_commands.specs.Scripts.{usual_setup, settings_of, depth_set};
ghost use Rattle.plain_commands.specs.Replay.{cluster_setting};
ghost use Rattle.plain_commands.specs.SetupTold.{timed, type_depth, GivesSetting};

use crate::line_end::LineEnd;
use actor_names::{NameError, read_actor_type};
use part_model::{TypeList, TypeSettings};
use script_text::Setting;
use std::alloc::Global;
use std::marker::Model;
use std::mem;
use world_events::WorldSettings;
use world_run::World;

/// The idle time, in milliseconds, of types for which no line sets another.
const USUAL_IDLE: u64 = 3_600_000;

/// The drain time, in milliseconds, of types for which no line sets another.
const USUAL_DRAIN: u64 = 60_000;

/// How many parts a member has, the types with reentrancy on, and the two times of all types. A type gets its times
/// when the world is opened, since a later line may set them.
#[derive(Drop)]
pub(crate) struct Setup {
    parts: u8,
    kinds: Vec<TypeSettings>,
    idle_ms: u64,
    drain_ms: u64,
}

impl Model for Setup {
    ghost use Rattle.std.specs.Prelude.{◌≤◌, map};
    ghost use Rattle.part_model.specs.Settings.{AreShallow};
    ghost use Rattle.plain_commands.specs.Scripts.{Setup};
    ghost use Rattle.plain_commands.specs.SetupTold.{type_depth};

    ghost Value = { Setup };

    ghost view = { λ a. record { parts = a.parts; depths = map type_depth a.kinds.items; idle = a.idle_ms; drain = a.drain_ms } };

    ghost invariant = { λ a. (1 ≤ a.parts) × (a.parts ≤ 16) × AreShallow a.kinds.items };
}

/// Gives each type these times.
fn set_times(kinds: &mut Vec<TypeSettings>, idle_ms: u64, drain_ms: u64)
    ensures { kinds.new.items ≡ map (timed idle_ms drain_ms) kinds.old.items }
{
    for kind in kinds.iter_mut() {
        kind.idle_ms = idle_ms;
        kind.drain_ms = drain_ms;
    }
}

/// Whether the type is among these.
fn has_type(kinds: &[TypeSettings], kind: &[u8]) -> bool
    ensures { result ≡ has_depth kind.now (map type_depth kinds.now) }
{
    for other in kinds {
        if kind == other.kind.as_slice() {
            return true;
        }
    }
    false
}

impl Setup {
    /// The setup of a cluster with `parts` parts per member, from 1 to 16; nothing else is set.
    pub(crate) fn new(alloc: Global, parts: u8) -> Setup
        requires some { 1 ≤ parts }
        requires few { parts ≤ 16 }
        ensures { result ≡ usual_setup parts }
    {
        Setup {
            parts,
            kinds: Vec::new(alloc),
            idle_ms: USUAL_IDLE,
            drain_ms: USUAL_DRAIN,
        }
    }

    /// Turns reentrancy on for a type.
    fn add(&mut self, alloc: Global, kind: &[u8], depth: u32) -> Result<(), NameError>
        requires { depth ≤ 1024 }
        ensures added { OnOk result (self.new ≡ record self.old { depths = depth_set kind.now depth self.old.depths }) }
    {
        self.kinds.reserve(1)?;
        let kind = read_actor_type(alloc, kind)?;
        self.kinds
            .push(TypeSettings {
                kind,
                idle_ms: 0,
                drain_ms: 0,
                depth,
            })
            .unwrap();
        Ok(())
    }

    /// Sets what a line says. A second depth for one type is refused at the type.
    pub(crate) fn set(&mut self, alloc: Global, setting: Setting<'_>) -> Result<(), LineEnd>
        ensures { GivesSetting result (cluster_setting self.old [] (setting_told setting.entry)) self.new }
    {
        match setting {
            Setting::Idle { ms } => self.idle_ms = ms,
            Setting::Drain { ms } => self.drain_ms = ms,
            Setting::Reentrant {
                column,
                kind,
                depth,
            } => {
                if has_type(self.kinds.as_slice(), kind) {
                    return Err(LineEnd::Refused { column });
                }
                if self.add(alloc, kind, depth.value).is_err() {
                    return Err(LineEnd::OutOfMemory);
                }
            }
        }
        Ok(())
    }

    /// Opens the world, which takes over the types; the settings aren't used again.
    pub(crate) fn open(&mut self, alloc: Global) -> World
        ensures { result ≡ view_of (opening_cluster (settings_of self.old)) }
    {
        let mut kinds = mem::replace(&mut self.kinds, Vec::new(alloc));
        set_times(&mut kinds, self.idle_ms, self.drain_ms);
        World::new(
            alloc,
            WorldSettings {
                parts: self.parts,
                kinds: TypeList::from_vec(kinds),
                idle_ms: self.idle_ms,
                drain_ms: self.drain_ms,
            },
        )
    }
}
