// What holds over whole histories of a fenced store. The function that states it does nothing.
ghost use Rattle.fence_rows.specs.Runs.{EpochNeverFalls, CrashKeepsEpoch, AcceptsAtLeast, RefusesEarlier, TellsApart, KeepsAcknowledged, RisksOneCommand};

use store_core::store_law;

/// Over every legal history, a list of commands and compactions with their answers: the epoch of an actor never falls, if
/// at first the actor has no value at its key, or one without a ttl, nor does a crash lower it; a write is accepted only
/// if its epoch is at least the actor's; and once one was accepted, each one of the actor with an earlier epoch is
/// refused. No answer of the store has the words by which a frame tells a refusal of the fence. A history is a list of
/// steps of the store, with the commands that it was given. So the contents are what the acknowledged commands alone lead
/// to, no stamp is acknowledged twice, and a crash leaves what was acknowledged, perhaps with the one command under way.
pub fn fence_law()
    ensures never_falls { EpochNeverFalls }
    ensures crash { CrashKeepsEpoch }
    ensures at_least { AcceptsAtLeast }
    ensures earlier { RefusesEarlier }
    ensures apart { TellsApart }
    ensures keeps { KeepsAcknowledged }
    ensures risks { RisksOneCommand }
{
    store_law();
}
