// Guesses of the slots that cells have, so that most cells are found by one comparison of keys.
use actor_names::ActorKey;
use std::alloc::Global;
use std::collections::BTreeMap;

/// How many guesses there are at first, for one part.
const FEWEST: usize = 64;

/// The fewest guesses for a cell, so that few cells share one.
const SPREAD: usize = 4;

/// Slots by the sums of keys. A guess may be wrong, and keys may share one. No contract speaks of it.
#[derive(Drop)]
pub(crate) struct Guesses {
    alloc: Global,
    slots: Vec<u32>,
}

// Adds bytes to a sum of 32 bits (FNV-1a).
fn sum_of(sum: u32, bytes: &[u8]) -> u32 {
    let mut sum = sum;
    for byte in bytes {
        sum = (sum ^ *byte as u32).wrapping_mul(16777619);
    }
    sum
}

impl Guesses {
    /// No guess; takes no memory.
    pub(crate) fn new(alloc: Global) -> Guesses {
        Guesses {
            alloc,
            slots: Vec::new(alloc),
        }
    }

    // The place of a key's guess; 0 if there is none.
    fn place(&self, key: &ActorKey) -> usize {
        let sum = sum_of(sum_of(2166136261, key.id.as_slice()), key.kind.as_slice());
        match (sum as usize).checked_rem(self.slots.len()) {
            None => 0,
            Some(place) => place,
        }
    }

    /// The slot that is guessed for a key; 0 if there is no guess.
    pub(crate) fn slot(&self, key: &ActorKey) -> usize {
        match self.slots.get(self.place(key)) {
            None => 0,
            Some(slot) => *slot as usize,
        }
    }

    // Guesses this slot for the key from now on.
    fn put(&mut self, key: &ActorKey, slot: usize) {
        let place = self.place(key);
        if let Some(guess) = self.slots.get_mut(place)
            && slot <= u32::MAX as usize
        {
            *guess = slot as u32;
        }
    }

    // Guesses the slots of all these keys, by a table for at least so many cells. If memory runs out, nothing changes.
    fn renew(&mut self, places: &BTreeMap<ActorKey, usize>) {
        let count = places.len().saturating_mul(2 * SPREAD).max(FEWEST);
        let mut slots = Vec::new(self.alloc);
        if slots.resize(count, 0).is_err() {
            return;
        }
        self.slots = slots;
        for (key, slot) in places {
            self.put(key, *slot);
        }
    }

    /// Guesses this slot for the key, which is one of these places.
    pub(crate) fn note(&mut self, key: &ActorKey, slot: usize, places: &BTreeMap<ActorKey, usize>) {
        if self.slots.len() / SPREAD < places.len() {
            self.renew(places);
        } else {
            self.put(key, slot);
        }
    }
}
