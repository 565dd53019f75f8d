// What holds over whole lists of calls.
ghost use Rattle.std.specs.Prelude.{◌≡◌, ◌≤◌, ◌∷◌, [], ℕ, List};
ghost use Rattle.tx_journal.specs.File.{IsShort};
ghost use Rattle.tx_journal.specs.Calls.{JournalState};
ghost use Rattle.tx_journal.specs.Batches.{behind, behind_each};
ghost use Rattle.tx_journal.specs.Runs.{JournalCall, Answer, AppendMoves, AppendAllMoves, Ledger, Stands, Runs, RisksEach};

/// Over every list of calls, the journal holds what was acknowledged. Whatever a crash leaves at any moment of a call
/// is either that, or what the call is about to make of it. Once a call has met a fault, both stay possible until the
/// journal is opened again.
pub fn run_law()
    ensures stands { (l m : Ledger) (old new : JournalState) (entries : List (JournalCall × Answer)) → Stands l old → Runs l old entries m new → Stands m new }
    ensures risks { (l : Ledger) (old : JournalState) (entries : List (JournalCall × Answer)) → Stands l old → RisksEach l old entries }
{}

/// A batch of one payload is an append. A batch gives the journal the length and the Generation that an append of each of
/// its payloads would give it.
pub fn batch_law()
    ensures one { (payload : List ℕ) (answer : Answer) (old new : JournalState) → IsShort payload → AppendAllMoves (payload ∷ []) answer old new → AppendMoves payload answer old new }
    ensures in_turn { (payloads : List (List ℕ)) (j : JournalState) → 9 ≤ j.end → behind payloads j ≡ behind_each payloads j }
{}
