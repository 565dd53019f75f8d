// The turn: taking it, and the ways to give it up.
ghost use Rattle.std.specs.Prelude.{◌≡◌, ℕ, ◌+◌, ◌*◌, ◌%◌, ◌^◌, ◌<◌, true, [], ◌∷◌, Some};
ghost use Rattle.step_gate.specs.declared.view.Turn.TheVariants.{Has, Shut};
ghost use Rattle.step_gate.specs.Kept.{Extends, Sees, holding};
ghost use Rattle.step_gate.specs.Turns.{Takes};
ghost use Rattle.step_gate.specs.Gates.{gate_id, IsSeatOf};

use crate::gate::{Gate, Seat};
use crate::plays::{Add, Close, GiveUp, Said, Take};
use state_machine::Machine;
use std::snapshot::Snapshot;
use std::sync::Wait;
use std::sync::atomic::Ordering;
use std::time::Duration;
use std::{hint, thread};

/// The word after 2^62 entries.
pub(crate) const LAST: u64 = 1 << 63;

/// How often a call that waits looks at the word before it sleeps, if it sees other turns come and go.
const LOOKS: u32 = 32;

/// How many looks in a row find the same turn before it sleeps: that one takes long, as if it waits for a disk.
const LOOKS_AT_ONE: u32 = 4;

/// How many hints it spins between its first two looks. Each look takes the cache line from the holder.
const HINTS: u32 = 16;

/// How often the number of hints doubles, so that the holder makes many steps between two looks. Then it also lets other
/// threads run: sooner it would be away for long where threads are many.
const HINT_DOUBLINGS: u32 = 4;

/// How often the longest sleep doubles, from one millisecond.
const DOUBLINGS: u32 = 4;

// Leaves the word alone for a time that grows with each try, and then lets other threads run.
fn spin(tries: u32) {
    let hints = HINTS << tries.min(HINT_DOUBLINGS);
    for _ in 0..hints {
        hint::spin_loop();
    }
    if tries >= HINT_DOUBLINGS {
        thread::yield_now();
    }
}

// What a call that waits for the turn has done so far.
#[derive(Drop)]
struct Waited {
    /// How often it has spun or slept; from `LOOKS` on it sleeps.
    tries: u32,
    /// The word at its last look.
    word: u64,
    /// How many looks before that one found this word.
    same: u32,
}

impl Waited {
    fn new() -> Waited {
        Waited {
            tries: 0,
            word: 0,
            same: 0,
        }
    }

    // The word was looked at in vain.
    fn look(&mut self, word: u64) {
        if word != self.word {
            self.word = word;
            self.same = 0;
            return;
        }
        self.same = self.same.saturating_add(1);
        if self.same >= LOOKS_AT_ONE {
            self.tries = self.tries.max(LOOKS);
        }
    }
}

impl<M: Machine> Gate<M> {
    // Spins. After some looks it sleeps, if the word is still this one, until the turn is free or a time has passed that
    // grows to at most 16 milliseconds.
    fn pause<R: Wait>(&self, rt: &R, waited: &mut Waited, word: u64) {
        waited.look(word);
        let tries = waited.tries;
        waited.tries = tries.saturating_add(1);
        if tries < LOOKS {
            spin(tries);
            return;
        }
        let low = (word % (1 << 32)) as u32;
        let longest = Duration::from_millis(1 << (tries - LOOKS).min(DOUBLINGS));
        self.bells.asleep.fetch_add(1, Ordering::SeqCst);
        self.table.shared.park_timeout(rt, 0, low, longest);
        self.bells.asleep.fetch_sub(1, Ordering::SeqCst);
    }

    // The turn is free: wakes one of the calls that sleep until then.
    fn hand_on(&self) {
        if self.bells.asleep.load(Ordering::SeqCst) > 0 {
            self.table.shared.wake_one(0);
        }
    }

    // Waits for the turn, and returns the word, which is odd from then on.
    pub(crate) fn take<R: Wait>(&self, rt: &R, seat: &mut Seat<M>) -> u64
        requires { IsSeatOf M.moves self.now seat.old }
        ensures { Takes (gate_id self.now) result seat.old.me.0 seat.new }
    {
        let mut waited = Waited::new();
        for _ in rt.forever() {
            let word = self.table.shared.peek(0);
            if word % 2 == 0 && word <= LAST {
                let found = self
                    .table
                    .shared
                    .compare_exchange::<Take>(seat, 0, word, word + 1);
                if found == word {
                    return word + 1;
                }
            }
            self.pause(rt, &mut waited, word);
        }
        unreachable!()
    }

    // Puts the value back into its slot, and adds the step to the history.
    pub(crate) fn release<W: Said<M::Event, M::Reply>>(
        &self,
        seat: &mut Seat<M>,
        at: u64,
        _event: &Snapshot<M::Event>,
        _reply: &M::Reply,
    )
        requires said { W.said ≡ Some (_event.now.value, _reply.now) }
        requires seat { (seat.old.table_id ≡ gate_id self.now) × (seat.old.me.0.live ≡ true) × (seat.old.me.0.named ≡ true) }
        requires turn { (x : M) × (y : M) × (seat.old.me.0.turn ≡ Has at x) × (seat.old.me.1 ≡ (0, y) ∷ []) × M.moves x _event.now.value _reply.now y }
        requires at { (at % 2 ≡ 1) × (at < 2 ^ 63) }
        ensures seat { (seat.new.table_id ≡ seat.old.table_id) × (seat.new.me.1 ≡ []) }
        ensures added { Extends M.moves _event.now.value _reply.now seat.old.me.0 seat.new.me.0 }
    {
        self.table.shared.store::<Add<W>>(seat, 0, at + 1);
        self.hand_on();
    }

    // Puts the value back into its slot, and leaves the history as it was.
    pub(crate) fn give_up(&self, seat: &mut Seat<M>, at: u64)
        requires seat { (seat.old.table_id ≡ gate_id self.now) × (seat.old.me.0.live ≡ true) × (seat.old.me.0.named ≡ true) }
        requires turn { (x : M) × (seat.old.me.0.turn ≡ Has at x) × (seat.old.me.1 ≡ (0, x) ∷ []) }
        requires at { at % 2 ≡ 1 }
        ensures seat { (seat.new.table_id ≡ seat.old.table_id) × (seat.new.me.1 ≡ []) }
        ensures sees { (n : ℕ) × (at ≡ 2 * n + 1) × Sees M.moves n seat.old.me.0 seat.new.me.0 }
    {
        self.table.shared.store::<GiveUp>(seat, 0, at - 1);
        self.hand_on();
    }

    // Puts the value back into its slot, and keeps the turn for good.
    pub(crate) fn shut(&self, seat: &mut Seat<M>, at: u64)
        requires seat { (seat.old.table_id ≡ gate_id self.now) × (seat.old.me.0.live ≡ true) }
        requires turn { (x : M) × (seat.old.me.0.turn ≡ Has at x) × (seat.old.me.1 ≡ (0, x) ∷ []) }
        requires at { at % 2 ≡ 1 }
        ensures { (seat.new.table_id ≡ seat.old.table_id) × (seat.new.me.0 ≡ holding Shut seat.old.me.0) }
    {
        self.table.shared.store::<Close>(seat, 0, at);
    }
}
