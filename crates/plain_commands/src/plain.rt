// The commands that need no thread: one call for all of them.
ghost use Rattle.std.specs.Prelude.{◌≡◌, ◌≢◌, ◌<◌, ◌⊎◌, ◌∷◌, [], true, None, Some, map, codes, string_bytes};
ghost use Rattle.command_words.specs.Reading.{Asking, Schedule, Drilling, Drill, Hosting, Placing, Seating, Standing, Placement, Store, Sidecar, Standby, has_options, reading};
ghost use Rattle.plain_commands.specs.Drilled.{DrillEnds, DrillsHonestly};
ghost use Rattle.plain_commands.specs.Status.{code_of};
ghost use Rattle.plain_commands.specs.ReplayTold.{Replays};
ghost use Rattle.plain_commands.specs.Schedule.{schedule_of, ScheduleEnds};
ghost use Rattle.plain_commands.specs.declared.status.Status.{Status};

use crate::drill::drill;
use crate::replay::replay;
use crate::schedule::schedule;
use crate::status::Status;
use actor_ports::{Sink, Source};
use command_words::{CommandWords, WordsError, read_words};
use std::alloc::Global;

/// Does what the words after the program's name say, and returns the status with which the program ends:
/// 0 done, 2 the words have no reading, 3 a line of the script or a text of the schedule is refused, 4 the source
/// failed, 5 the sink failed, 8 out of memory, 10 the script exceeds its limit of 67,108,864 bytes or 1,000,000
/// lines.
/// `replay`, without options: the whole source is read first, then each line of the script runs in order and what
/// comes of it is written; a script that begins with `cluster P` drives a placement and the parts of members.
/// `schedule`, with `--now M` and perhaps `--due T`, `--period T`, `--ttl T` and `--count N`: the moments of that
/// schedule are written, up to N of them, or the first fault of a text. `drill`, with `--seed N` and `--steps N`: a
/// cluster runs random events, and what is counted of it is written. Own.
pub fn run_plain<I: Source, W: Sink>(
    alloc: Global,
    words: &[String],
    input: &mut I,
    output: &mut W,
) -> u8
    // Words end as usage only if they have no reading, or are those of a server, which needs threads; without a reading,
    // words with options may also run out of memory. Nothing is read or written then.
    ensures usage { result ≡ 2 → (reading (map string_bytes words.now) ≡ None) ⊎ (((p : Placing) × (reading (map string_bytes words.now) ≡ Some (Placement p))) ⊎ (((p : Hosting) × (reading (map string_bytes words.now) ≡ Some (Store p))) ⊎ (((s : Seating) × (reading (map string_bytes words.now) ≡ Some (Sidecar s))) ⊎ ((s : Standing) × (reading (map string_bytes words.now) ≡ Some (Standby s)))))) }
    ensures placed { (p : Placing) → reading (map string_bytes words.now) ≡ Some (Placement p) → (input.new ≡ input.old) × (output.new ≡ output.old) }
    ensures stored { (p : Hosting) → reading (map string_bytes words.now) ≡ Some (Store p) → (input.new ≡ input.old) × (output.new ≡ output.old) }
    ensures seated { (s : Seating) → reading (map string_bytes words.now) ≡ Some (Sidecar s) → (input.new ≡ input.old) × (output.new ≡ output.old) }
    ensures standing { (s : Standing) → reading (map string_bytes words.now) ≡ Some (Standby s) → (input.new ≡ input.old) × (output.new ≡ output.old) }
    ensures no_reading { reading (map string_bytes words.now) ≡ None
        → (result ≡ 2) ⊎ ((result ≡ 8) × (has_options (map string_bytes words.now) ≡ true)) }
    ensures untouched { reading (map string_bytes words.now) ≡ None → (input.new ≡ input.old) × (output.new ≡ output.old) }

    // The status is that of a replay of the source's bytes, and what was written is what that replay prints: the
    // outcomes of the events that the script's lines name. For these the headline holds: no actor is active on two
    // members, and the turns of one actor never mix.
    ensures replayed { map string_bytes words.now ≡ codes "replay" ∷ [] → (ended : Status) × (result ≡ code_of ended)
        × Replays (I.remaining input.old) (I.remaining input.new) ended (W.contents output.old) (W.contents output.new) }

    // The status is that of the schedule that is asked for, what was written is what it prints, and the source
    // stays unread.
    ensures scheduled { (asking : Asking) → reading (map string_bytes words.now) ≡ Some (Schedule asking) → (ended : Status) × (result ≡ code_of ended)
        × ScheduleEnds (schedule_of asking) ended (W.contents output.old) (W.contents output.new) × (input.new ≡ input.old) }

    // The status is 0 and what was written is the counts of the drill that is asked for, unless the sink failed or
    // there was no memory; the source stays unread. No event of the drill declares a running member lost.
    ensures drilled { (d : Drilling) → reading (map string_bytes words.now) ≡ Some (Drill d) → (ended : Status) × (result ≡ code_of ended)
        × DrillEnds d ended (W.contents output.old) (W.contents output.new) × DrillsHonestly d × (input.new ≡ input.old) }

    // The status is one of those of `Status`. A fault of the source or the sink is reported only if its count of faults
    // rose.
    ensures status { (ended : Status) × (result ≡ code_of ended) }
    ensures source { result ≡ 4 → I.read_faults input.old < I.read_faults input.new }
    ensures sink { result ≡ 5 → W.write_faults output.old < W.write_faults output.new }
{
    let status = match read_words(alloc, words) {
        Ok(CommandWords::Replay) => replay(alloc, input, output),
        Ok(CommandWords::Schedule(words)) => schedule(alloc, &words, output),
        Ok(CommandWords::Drill(words)) => drill(alloc, &words, output),
        Ok(CommandWords::Placement(_)) => Status::Usage,
        Ok(CommandWords::Store(_)) => Status::Usage,
        Ok(CommandWords::Sidecar(_)) => Status::Usage,
        Ok(CommandWords::Standby(_)) => Status::Usage,
        Err(WordsError::Usage) => Status::Usage,
        Err(WordsError::OutOfMemory) => Status::OutOfMemory,
    };
    status as u8
}
