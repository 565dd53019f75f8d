// Payloads that are to be put on the disk together.
ghost use Rattle.std.specs.Prelude.{◌≡◌, ◌≢◌, ◌≤◌, [], ◌∷◌, ◌++◌, length, IfOk};
ghost use Rattle.std.specs.List.{AllByRecursion};
ghost use Rattle.tx_journal.specs.File.{records, IsShort};
ghost use Rattle.tx_journal.specs.Pair.{first_generation};
ghost use Rattle.tx_journal.specs.Batches.{most_batch, AddsTo};

use crate::record::{behind_gate, fill, zeros};
use crate::staged::Staged;
use crate::survey::generation_with;
use std::alloc::{AllocError, Global};
use std::marker::Model;

// The bytes of a buffer: room for one longest record and the gate behind it.
pub(crate) const ROOM: usize = 5_242_886;

/// Payloads that `Journal::append_all` puts on the disk together. Their records have at most 5,242,885 bytes: each has
/// five beside its payload. `Journal::stage` adds a payload; only `new` takes memory.
#[derive(Drop)]
pub struct Batch {
    buffer: Vec<u8>,
    len: usize,
    generation: Option<u64>,
}

impl Model for Batch {
    ghost use Rattle.std.specs.Prelude.{ℕ, ◌+◌, List, take};
    ghost use Rattle.tx_journal.specs.Batches.{batch_payloads, IsBatch};

    ghost Value = { List (List ℕ) };

    ghost view = { λ b. batch_payloads (take (b.len + 1) b.buffer.items) };

    ghost invariant = { λ b. IsBatch b.buffer.items b.len b.generation };
}

impl Batch {
    /// An empty batch, with all the memory that it will need.
    pub fn new(alloc: Global) -> Result<Batch, AllocError>
        ensures { IfOk result (λ b. b ≡ []) }
    {
        Ok(Batch {
            buffer: zeros(alloc, ROOM)?,
            len: 0,
            generation: None,
        })
    }

    /// Takes all payloads out.
    pub fn clear(&mut self)
        ensures { self.new ≡ [] }
    {
        self.buffer[0] = 0;
        self.len = 0;
        self.generation = None;
    }

    // How many bytes the records have.
    pub(crate) fn size(&self) -> usize
        ensures is { result ≡ length (records self.now) }
        ensures most { result ≤ most_batch }
    {
        self.len
    }

    // The number of the first payload, if that is a Generation.
    pub(crate) fn generation(&self) -> Option<u64>
        ensures { result ≡ first_generation self.now }
    {
        self.generation
    }

    // The records without the gate before the first, and a closed gate behind the last.
    pub(crate) fn text(&self) -> &[u8]
        requires { self.now ≢ [] }
        ensures text { 1 ∷ result.now ≡ records self.now ++ 0 ∷ [] }
        ensures short { AllByRecursion IsShort self.now }
    {
        behind_gate(&self.buffer, self.len)
    }

    // Adds a payload, if there is room for it.
    pub(crate) fn add(&mut self, payload: &[u8]) -> Staged
        requires { IsShort payload.now }
        ensures { AddsTo payload.now result self.old self.new }
    {
        let size = 5 + payload.len();
        if self.len + size >= ROOM {
            return Staged::NoRoom;
        }
        fill(&mut self.buffer[self.len..], payload);
        // The records number a file as they would behind the first nine bytes of a new one.
        self.generation = generation_with(9 + self.len as u64, self.generation, payload);
        self.len += size;
        Staged::Added
    }
}
