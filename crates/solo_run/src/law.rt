// What holds of a solo world over every list of depths and events.
ghost use Rattle.std.specs.Prelude.{◌≡◌, length, List, [], ℕ};
ghost use Rattle.actor_names.specs.Names.{before_slash};
ghost use Rattle.turn_core.specs.CellMarks.{TurnsIsolated, open_after};
ghost use Rattle.world_events.specs.Solo.{SoloEvent};
ghost use Rattle.solo_run.specs.World.{TypeDepth, depth_of};
ghost use Rattle.solo_run.specs.Runs.{solo_run, solo_log, solo_marks};
ghost use Rattle.solo_run.specs.TurnsTold.{CountsFromOne, NoIdleWaiter, actor_turns, call_turns, numbers_of, open_turns, turns_at, turns_of_log};

/// Holds for all depths and events, refused events included. As the log reports them, the turns of one actor never
/// mix; each is at the actor, and under the chain, named by the event that made its call; and the turns that the log
/// leaves open are those that the actor has open. The log reports exactly the turns that begin and end in the cells,
/// and for each of them it has the event that made the call. An actor with nothing open leaves no call waiting. The
/// count of events is the log's length, and the calls are numbered 1, 2, 3 and so on. A prefix of a list is a list
/// too, so this holds at every moment of a run.
pub fn solo_law()
    ensures isolated { (depths : List TypeDepth) (events : List SoloEvent) (key : List ℕ) →
        TurnsIsolated (depth_of (before_slash key) depths) (turns_at depths key (solo_log depths events)) }
    ensures left_open { (depths : List TypeDepth) (events : List SoloEvent) (key : List ℕ) →
        open_after [] (turns_at depths key (solo_log depths events)) ≡ open_turns key (solo_run depths events) }
    ensures told { (depths : List TypeDepth) (events : List SoloEvent) →
        solo_marks depths events ≡ actor_turns depths (solo_log depths events) }
    ensures each_told { (depths : List TypeDepth) (events : List SoloEvent) →
        call_turns (actor_turns depths (solo_log depths events)) ≡ turns_of_log (solo_log depths events) }
    ensures no_idle_waiter { (depths : List TypeDepth) (events : List SoloEvent) → NoIdleWaiter (solo_run depths events) }
    ensures numbered { (depths : List TypeDepth) (events : List SoloEvent) → CountsFromOne (numbers_of (solo_log depths events)) }
    ensures counted { (depths : List TypeDepth) (events : List SoloEvent) → (solo_run depths events).events ≡ length (solo_log depths events) }
    ensures depths { (depths : List TypeDepth) (events : List SoloEvent) → (solo_run depths events).depths ≡ depths }
{}
