// A script between two lines, and what a line of it does.
ghost use Rattle.std.specs.Prelude.{[], false};
ghost use Rattle.script_text.specs.ClusterLines.{cluster_line};
ghost use Rattle.plain_commands.specs.Scripts.{ScriptLog, Unread};
ghost use Rattle.plain_commands.specs.Replay.{line_step, cluster_does};
ghost use Rattle.plain_commands.specs.ReplayTold.{IsOf, GivesLine, opened_script};
ghost use Rattle.plain_commands.specs.declared.script.Script.TheVariants.{Cluster};

use crate::cluster_script::happen;
use crate::line_end::LineEnd;
use crate::setup::Setup;
use crate::solo_script::SoloScript;
use outcome_text::Transcript;
use script_text::{ClusterLine, LineError, read_cluster_line, read_cluster_setting};
use std::alloc::Global;
use world_run::World;

/// A script, whose first line says what kind it is.
#[derive(Drop)]
pub(crate) enum Script {
    /// No line has been read.
    Unread,
    /// A script of cells alone.
    Solo(SoloScript),
    /// A cluster script without an event so far.
    Opening(Setup),
    /// A cluster script with an event.
    Cluster(World),
}

impl Script {
    /// Does what a line says, and adds what it prints.
    pub(crate) fn line(
        &mut self,
        alloc: Global,
        line: &[u8],
        transcript: &mut Transcript,
    ) -> Result<(), LineEnd>
        ensures { (log : ScriptLog) → IsOf log self.old → GivesLine result (line_step log line.now) self.new transcript.old transcript.new }
    {
        match self {
            Script::Unread => self.first_line(alloc, line, transcript),
            Script::Solo(script) => script.line(alloc, line, transcript),
            Script::Opening(setup) => {
                let (done, world) = opening_line(alloc, setup, line, transcript);
                if let Some(world) = world {
                    *self = Script::Cluster(world);
                }
                done
            }
            Script::Cluster(world) => running_line(alloc, world, line, transcript),
        }
    }

    /// Does what the first line says, which gives the kind of the script.
    fn first_line(
        &mut self,
        alloc: Global,
        line: &[u8],
        transcript: &mut Transcript,
    ) -> Result<(), LineEnd>
        ensures { IsOf Unread self.old → GivesLine result (line_step Unread line.now) self.new transcript.old transcript.new }
    {
        match read_cluster_setting(line) {
            Err(column) => Err(LineEnd::Refused { column }),
            Ok(Some(parts)) => {
                *self = Script::Opening(Setup::new(alloc, parts));
                Ok(())
            }
            Ok(None) => {
                let mut script = SoloScript::new(alloc);
                let done = script.line(alloc, line, transcript);
                *self = Script::Solo(script);
                done
            }
        }
    }
}

/// Does what a line says, for a cluster script without an event so far. The first event opens the world, which is
/// returned.
fn opening_line(
    alloc: Global,
    setup: &mut Setup,
    line: &[u8],
    transcript: &mut Transcript,
) -> (Result<(), LineEnd>, Option<World>)
    ensures { GivesLine result.0 (cluster_does setup.old [] (cluster_line false line.now)) (opened_script setup.new result.1) transcript.old transcript.new }
{
    match read_cluster_line(alloc, line, false) {
        Err(LineError::BadColumn { column }) => (Err(LineEnd::Refused { column }), None),
        Err(LineError::OutOfMemory) => (Err(LineEnd::OutOfMemory), None),
        Ok(ClusterLine::Blank) => (Ok(()), None),
        Ok(ClusterLine::Sets { setting }) => (setup.set(alloc, setting), None),
        Ok(ClusterLine::Does { column, event }) => {
            let mut world = setup.open(alloc);
            let done = happen(alloc, &mut world, column, event, transcript);
            (done, Some(world))
        }
    }
}

/// Does what a line says, for a cluster script with an event, in which no setting may follow.
fn running_line(
    alloc: Global,
    world: &mut World,
    line: &[u8],
    transcript: &mut Transcript,
) -> Result<(), LineEnd>
    ensures { (log : ScriptLog) → IsOf log (Cluster world.old) → GivesLine result (line_step log line.now) (Cluster world.new) transcript.old transcript.new }
{
    match read_cluster_line(alloc, line, true) {
        Err(LineError::BadColumn { column }) => Err(LineEnd::Refused { column }),
        Err(LineError::OutOfMemory) => Err(LineEnd::OutOfMemory),
        Ok(ClusterLine::Blank) => Ok(()),
        Ok(ClusterLine::Sets { .. }) => unreachable!(),
        Ok(ClusterLine::Does { column, event }) => happen(alloc, world, column, event, transcript),
    }
}
