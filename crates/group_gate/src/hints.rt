// Where asks may stand, and where calls sleep. No contract speaks of it: a hint that is missed only delays, since the call
// whose ask it was takes the turn itself, and every sleep ends by itself.
use std::alloc::{AllocError, Global};
use std::sync::atomic::{AtomicU64, Ordering};

/// How many places one word of hints covers.
pub(crate) const GROUP: usize = 64;

/// The hints of a gate: words with a bit for each place, from place 0 on.
#[derive(Drop)]
pub(crate) struct Hints {
    /// Where an ask may stand.
    asked: Vec<AtomicU64>,
    /// Where a call sleeps.
    sleeping: Vec<AtomicU64>,
}

// Words for so many groups of places, with no bit set.
fn no_bits(alloc: Global, groups: usize) -> Result<Vec<AtomicU64>, AllocError> {
    let mut words = Vec::with_capacity(alloc, groups)?;
    for _ in 0..groups {
        words.push(AtomicU64::new(0))?;
    }
    Ok(words)
}

// The bit of the place in the word of its group.
fn bit_of(place: usize) -> u64 {
    1u64 << (place % GROUP) as u32
}

impl Hints {
    pub(crate) fn new(alloc: Global, places: usize) -> Result<Hints, AllocError> {
        let groups = places / GROUP + 1;
        let asked = no_bits(alloc, groups)?;
        let sleeping = no_bits(alloc, groups)?;
        Ok(Hints { asked, sleeping })
    }

    /// An ask stands at this place.
    pub(crate) fn note(&self, place: usize) {
        if let Some(word) = self.asked.get(place / GROUP) {
            word.fetch_or(bit_of(place), Ordering::SeqCst);
        }
    }

    /// Which places of the group may have an ask, a bit for each; they are forgotten.
    pub(crate) fn take(&self, group: usize) -> u64 {
        match self.asked.get(group) {
            None => 0,
            Some(word) => {
                if word.load(Ordering::SeqCst) == 0 {
                    return 0;
                }
                word.swap(0, Ordering::SeqCst)
            }
        }
    }

    /// A call is about to sleep at this place.
    pub(crate) fn lie_down(&self, place: usize) {
        if let Some(word) = self.sleeping.get(place / GROUP) {
            word.fetch_or(bit_of(place), Ordering::SeqCst);
        }
    }

    /// It sleeps no more.
    pub(crate) fn get_up(&self, place: usize) {
        if let Some(word) = self.sleeping.get(place / GROUP) {
            word.fetch_and(!bit_of(place), Ordering::SeqCst);
        }
    }

    /// At which places of the group a call sleeps, a bit for each.
    pub(crate) fn sleepers(&self, group: usize) -> u64 {
        match self.sleeping.get(group) {
            None => 0,
            Some(word) => word.load(Ordering::SeqCst),
        }
    }
}
