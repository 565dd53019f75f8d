// How a call waits at its place, and whom it wakes that gives up the turn.
ghost use Rattle.std.specs.Prelude.{◌≤◌};

use crate::desk::{ANSWERED, ASKED};
use crate::gate::GroupGate;
use crate::grouped::Grouped;
use crate::hints::GROUP;
use std::hint;
use std::sync::Wait;
use std::time::Duration;

/// How often a call that waits looks at the words before it sleeps. A turn that callers share waits for a disk, so whoever
/// spins for long only takes a processor from the others.
const LOOKS: u32 = 4;

/// How many hints it spins between its first two looks; they double with each look. Each look takes the cache line from
/// the holder.
const HINTS: u32 = 16;

/// How often the longest sleep doubles, from one millisecond.
const DOUBLINGS: u32 = 4;

// Leaves the words alone for a time that grows with each try.
fn spin(tries: u32) {
    for _ in 0..HINTS << tries.min(LOOKS) {
        hint::spin_loop();
    }
}

impl<M: Grouped> GroupGate<M> {
    // Whether nobody had the turn a moment ago.
    fn is_free(&self) -> bool {
        self.table.shared.peek(0) % 2 == 0
    }

    // Spins. After some tries it sleeps at the place, unless its answer is there or the turn is free, until it is woken or
    // a time has passed that grows to at most 16 milliseconds. Its bit is set before it looks, so no answer passes it by. A
    // wake to lead that falls between the look and the sleep is lost.
    pub(crate) fn rest<R: Wait>(&self, rt: &R, place: usize, tries: u32)
        requires { place ≤ self.now.places }
    {
        if tries < LOOKS {
            spin(tries);
            return;
        }
        let longest = Duration::from_millis(1 << (tries - LOOKS).min(DOUBLINGS));
        self.hints.lie_down(place);
        let word = self.table.shared.peek(place);
        if word != ANSWERED && !self.is_free() {
            let low = (word % (1 << 32)) as u32;
            self.table.shared.park_timeout(rt, place, low, longest);
        }
        self.hints.get_up(place);
    }

    // Wakes the call that sleeps at the place, if the place has this word.
    fn wake_at(&self, place: usize, word: u64) -> bool
        requires { place ≤ self.now.places }
    {
        let has = self.table.shared.peek(place) == word;
        if has {
            self.table.shared.wake_one(place);
        }
        has
    }

    // Wakes the calls of the group that sleep at places with this word. Of those whose asks nobody has collected only the
    // first is woken, since one is enough to lead; true says that it was.
    fn wake_group(&self, group: usize, word: u64) -> bool
        requires { group ≤ 128 }
    {
        let bits = self.hints.sleepers(group);
        if bits == 0 {
            return false;
        }
        for bit in 0..GROUP {
            let place = group * GROUP + bit;
            if (bits >> bit as u32) % 2 == 1 && 0 < place && place <= self.places {
                if self.wake_at(place, word) && word == ASKED {
                    return true;
                }
            }
        }
        false
    }

    // The turn is free: wakes the calls that sleep and have their answers, and then one that is to lead, unless somebody
    // has the turn again.
    pub(crate) fn hand_on(&self) {
        let groups = self.places / GROUP + 1;
        for group in 0..groups {
            self.wake_group(group, ANSWERED);
        }
        for group in 0..groups {
            if !self.is_free() || self.wake_group(group, ASKED) {
                return;
            }
        }
    }
}
