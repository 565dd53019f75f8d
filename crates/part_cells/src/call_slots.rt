// An index from calls to slots.
ghost use Rattle.std.specs.Prelude.{◌≡◌, ℕ, ◌==◌, None, Some, if◌then◌else◌, OnOk, OnErr};
ghost use Rattle.part_cells.specs.Slots.{slot_of, is_among};

use actor_names::OutOfMemory;
use std::alloc::Global;
use std::collections::BTreeMap;
use std::marker::Model;

/// Which slot has which call.
#[derive(Drop)]
pub(crate) struct CallSlots {
    slots: BTreeMap<u64, usize>,
}

impl Model for CallSlots {
    ghost use Rattle.std.specs.Prelude.{List, ℕ};

    ghost Value = { List (ℕ × ℕ) };

    ghost view = { λ a. a.slots.entries };
}

impl CallSlots {
    /// No call; takes no memory.
    pub(crate) fn new(alloc: Global) -> CallSlots
        ensures { (n : ℕ) → slot_of result n ≡ None }
    {
        CallSlots {
            slots: BTreeMap::new(alloc),
        }
    }

    /// The slot of a call.
    pub(crate) fn slot(&self, call: u64) -> Option<usize>
        ensures { result ≡ slot_of self.now call }
    {
        match self.slots.get(&call) {
            None => None,
            Some(slot) => Some(*slot),
        }
    }

    /// Notes the slot under the call. If memory runs out, the index is as before.
    pub(crate) fn add(&mut self, call: u64, slot: usize) -> Result<(), OutOfMemory>
        ensures ok { OnOk result ((n : ℕ) → slot_of self.new n ≡ (if n == call then Some slot else slot_of self.old n)) }
        ensures err { OnErr result (self.new ≡ self.old) }
    {
        let _before = self.slots.insert(call, slot)?;
        Ok(())
    }

    /// Forgets the call; takes no memory.
    pub(crate) fn remove(&mut self, call: u64)
        ensures { (n : ℕ) → slot_of self.new n ≡ (if n == call then None else slot_of self.old n) }
    {
        let _slot = self.slots.remove(&call);
    }

    /// Forgets these calls; takes no memory.
    pub(crate) fn forget(&mut self, calls: &[u64])
        ensures { (n : ℕ) → slot_of self.new n ≡ (if is_among n calls.now then None else slot_of self.old n) }
    {
        if let Some((call, rest)) = calls.split_first() {
            self.remove(*call);
            self.forget(rest);
        }
    }
}
