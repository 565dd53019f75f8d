// A solo script between two lines, and what a line of it does.
ghost use Rattle.std.specs.Prelude.{◌≡◌, List, ℕ, [], false};
ghost use Rattle.world_events.specs.Solo.{SoloEvent as Told, event_told};
ghost use Rattle.solo_run.specs.World.{TypeDepth, refusal_of};
ghost use Rattle.solo_run.specs.Runs.{solo_run};
ghost use Rattle.script_text.specs.LinesTold.{setting_told};
ghost use Rattle.script_text.specs.SoloLines.{solo_line};
ghost use Rattle.plain_commands.specs.Scripts.{SoloLog, any_of};
ghost use Rattle.plain_commands.specs.Replay.{solo_does, solo_setting, solo_event};
ghost use Rattle.plain_commands.specs.ReplayTold.{IsOf, GivesLine};
ghost use Rattle.plain_commands.specs.declared.script.Script.TheVariants.{Solo};

use crate::line_end::{LineEnd, line_end_of};
use outcome_text::Transcript;
use script_text::{Setting, SoloLine, read_solo_line};
use solo_run::SoloWorld;
use std::alloc::Global;
use world_events::SoloEvent;

/// The world of a solo script, and whether an event line has come.
#[derive(Drop)]
pub(crate) struct SoloScript {
    pub(crate) started: bool,
    pub(crate) world: SoloWorld,
}

impl SoloScript {
    /// A script without lines so far.
    pub(crate) fn new(alloc: Global) -> SoloScript
        ensures { IsOf (SoloLog [] []) (Solo result) }
    {
        SoloScript {
            started: false,
            world: SoloWorld::new(alloc),
        }
    }

    /// Does what a line says, and adds what it prints.
    pub(crate) fn line(
        &mut self,
        alloc: Global,
        line: &[u8],
        transcript: &mut Transcript,
    ) -> Result<(), LineEnd>
        ensures { (depths : List TypeDepth) (events : List Told) → IsOf (SoloLog depths events) (Solo self.old)
            → GivesLine result (solo_does depths events (solo_line (any_of events) line.now)) (Solo self.new) transcript.old transcript.new }
    {
        match read_solo_line(line, self.started) {
            Err(column) => Err(LineEnd::Refused { column }),
            Ok(SoloLine::Blank) => Ok(()),
            Ok(SoloLine::Sets { setting }) => self.set(alloc, setting),
            Ok(SoloLine::Does { column, event }) => self.event(alloc, column, event, transcript),
        }
    }

    /// Sets what a line before all events says; the times of solo scripts have no effect.
    fn set(&mut self, alloc: Global, setting: Setting<'_>) -> Result<(), LineEnd>
        ensures { (depths : List TypeDepth) (events : List Told) (text : List ℕ) → IsOf (SoloLog depths events) (Solo self.old) → any_of events ≡ false
            → GivesLine result (solo_setting depths events (setting_told setting.entry)) (Solo self.new) text text }
    {
        let Setting::Reentrant {
            column,
            kind,
            depth,
        } = setting
        else {
            return Ok(());
        };
        if self.world.has_depth(kind) {
            return Err(LineEnd::Refused { column });
        }
        match self.world.set_depth(alloc, kind, depth.value) {
            Ok(()) => Ok(()),
            Err(_) => Err(LineEnd::OutOfMemory),
        }
    }

    /// Lets an event happen; a wrong call number is refused at its column.
    fn event(
        &mut self,
        alloc: Global,
        column: u64,
        event: SoloEvent<'_>,
        transcript: &mut Transcript,
    ) -> Result<(), LineEnd>
        ensures { (depths : List TypeDepth) (events : List Told) → IsOf (SoloLog depths events) (Solo self.old)
            → GivesLine result (solo_event depths events column (event_told event.entry) (refusal_of (solo_run depths events) (event_told event.entry))) (Solo self.new) transcript.old transcript.new }
    {
        self.started = true;
        match self.world.step(alloc, event) {
            Ok(outcome) => match transcript.add_turn_outcome(&outcome) {
                Ok(()) => Ok(()),
                Err(_) => Err(LineEnd::OutOfMemory),
            },
            Err(error) => Err(line_end_of(error, column)),
        }
    }
}
