// What stands before the store in a list of commands.
use frame_wire::{StoreAnswer, StoreCommand};
use std::alloc::Global;
use store_tables::StoreTables;

/// What a guard makes of what is asked.
#[derive(Drop)]
pub enum Guarded<B> {
    /// The store is given this command, at a moment in milliseconds since 1970.
    Pass { command: StoreCommand, now: u64 },
    /// It is answered so, and the store isn't asked.
    Answer { answer: B },
}

/// Passes on what is asked of a list of commands, or answers it in the store's place, by what the store contains where
/// it comes. `rules` is what it does, `may` says what may be asked, and `fits` which answers can be written as frames.
pub trait Guard {
    ghost use Rattle.std.specs.Prelude.{◌≡◌, ◌⊎◌, true, None, Some};
    ghost use Rattle.frame_wire.specs.declared.store_answer.StoreAnswer.TheVariants.{Refused};
    ghost use Rattle.frame_wire.specs.declared.store_refusal.StoreRefusal.TheVariants.{Reopen};
    ghost use Rattle.frame_wire.specs.Store.{AnswerFits};
    ghost use Rattle.store_core.specs.Store.{StoreState};
    ghost use Rattle.store_core.specs.Lists.{Rules, Decides};

    /// What is asked.
    type Asked: Drop;

    /// What it is answered.
    type Answer: Drop;

    /// What the guard does.
    ghost rules: { Rules Self.Asked Self.Answer };

    /// What may be asked.
    ghost may: { Self.Asked → Type 0 };

    /// Which answers can be written as frames.
    ghost fits: { Self.Answer → Type 0 };

    /// What is true of whatever is asked, by the ranges of its numbers.
    ghost short: { Self.Asked → Type 0 };

    /// Passes on what is asked, or answers it; `is_broken` says whether the store met a fault.
    fn guard(
        alloc: Global,
        tables: &StoreTables,
        is_broken: bool,
        asked: Self::Asked,
    ) -> Guarded<Self::Answer>
        requires { may asked }
        ensures short { short asked }
        ensures decides { (s : StoreState) → s.contents ≡ tables.now.tables → s.journal.is_broken ≡ is_broken → Decides rules fits s asked result };

    /// An answer of the store, as it is told.
    fn told(given: StoreAnswer) -> Self::Answer
        ensures is { result ≡ rules.told given }
        ensures fits { AnswerFits given → fits result };

    /// What is passed on to a store isn't answered otherwise in its place once the store met a fault.
    ghost reopens: { (asked : Self.Asked) (s t : StoreState) → rules.refusal asked s ≡ None → t.contents ≡ s.contents → t.journal.is_broken ≡ true → (rules.refusal asked t ≡ None) ⊎ (rules.refusal asked t ≡ Some (rules.told (Refused Reopen))) };
}
