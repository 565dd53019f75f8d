// The log.
ghost use Rattle.std.specs.Prelude.{◌≡◌, ◌-◌, ◌≤◌, ◌⊎◌, ◌↔◌, IsTrue};

use crate::batch::Batch;
use crate::notice::{Notice, Peer};
use actor_names::{Address, OutOfMemory};
use std::alloc::Global;
use std::sync::Mutex;
use std::sync::atomic::{AtomicBool, AtomicU64, Ordering};

// How often a line looks whether the log is free before it is given up. Whoever has it copies one line, or exchanges two
// pointers.
const TRIES: u32 = 1_000;

// How long something may last until it is said again, in milliseconds.
const REPEAT_MS: u64 = 60_000;

/// The log of a server. All threads say lines in it, and one takes them out. No call waits: neither for room nor for
/// another thread. It shows the time that it was told last.
#[derive(Drop)]
pub struct EventLog {
    pending: Mutex<Batch>,
    lost: AtomicU64,
    now_ms: AtomicU64,
    is_stopping: AtomicBool,
    // When it was said last that the placement, the store and the application are away; 0 if they aren't.
    placement: AtomicU64,
    store: AtomicU64,
    application: AtomicU64,
    // When something that goes on happening was said last; 0 if it wasn't.
    lasting: AtomicU64,
}

// Whether what lasts is to be said now, if it was said at this moment last.
fn is_due(said_ms: u64, now_ms: u64) -> bool
    ensures { IsTrue result ↔ ((said_ms ≡ 0) ⊎ (REPEAT_MS ≤ now_ms - said_ms)) }
{
    said_ms == 0 || now_ms.saturating_sub(said_ms) >= REPEAT_MS
}

impl EventLog {
    /// An empty log, at the moment 0.
    pub fn new(alloc: Global) -> Result<EventLog, OutOfMemory> {
        Ok(EventLog {
            pending: Mutex::new(Batch::new(alloc)?),
            lost: AtomicU64::new(0),
            now_ms: AtomicU64::new(0),
            is_stopping: AtomicBool::new(false),
            placement: AtomicU64::new(0),
            store: AtomicU64::new(0),
            application: AtomicU64::new(0),
            lasting: AtomicU64::new(0),
        })
    }

    /// Tells the log the time, in milliseconds since 1970: lines that are said later bear it.
    pub fn set_now(&self, now_ms: u64) {
        self.now_ms.store(now_ms, Ordering::SeqCst);
    }

    /// The time that it was told last.
    pub fn now_ms(&self) -> u64 {
        self.now_ms.load(Ordering::SeqCst)
    }

    /// Says that something has happened. A line for which there is no room is counted as lost.
    pub fn say(&self, notice: Notice) {
        let at_ms = self.now_ms();
        for _ in 0..TRIES {
            if let Some(mut pending) = self.pending.try_lock() {
                if pending.add(at_ms, notice) {
                    return;
                }
                break;
            }
        }
        self.lost.fetch_add(1, Ordering::SeqCst);
    }

    /// Says why the server stops. Only the first such notice is said.
    pub fn say_stop(&self, notice: Notice) {
        if !self.is_stopping.swap(true, Ordering::SeqCst) {
            self.say(notice);
        }
    }

    // When it was said last that a process is away.
    fn said(&self, peer: Peer) -> &AtomicU64 {
        match peer {
            Peer::Placement => &self.placement,
            Peer::Store => &self.store,
            Peer::Application => &self.application,
        }
    }

    // Whether the thread is to say now what lasts, and was said last at the moment in this word.
    fn claim(&self, said: &AtomicU64) -> bool {
        let last = said.load(Ordering::SeqCst);
        let now = self.now_ms();
        is_due(last, now)
            && said
                .compare_exchange(last, now.max(1), Ordering::SeqCst, Ordering::SeqCst)
                .is_ok()
    }

    /// Says something that goes on happening: the first time, and then once a minute.
    pub fn say_lasting(&self, notice: Notice) {
        if self.claim(&self.lasting) {
            self.say(notice);
        }
    }

    /// A process was found away: this is said the first time, and then once a minute.
    pub fn away(&self, peer: Peer, at: Address) {
        if self.claim(self.said(peer)) {
            self.say(Notice::Away { peer, at });
        }
    }

    /// A process answered: this is said if it was away before.
    pub fn back(&self, peer: Peer, at: Address) {
        let said = self.said(peer);
        if said.load(Ordering::SeqCst) == 0 {
            return;
        }
        if said.swap(0, Ordering::SeqCst) != 0 {
            self.say(Notice::Back { peer, at });
        }
    }

    /// Takes the lines out, in place of those that the batch had, and answers how many were lost since the last time:
    /// all later than these. While another thread has the log it takes nothing.
    pub fn take(&self, batch: &mut Batch) -> u64 {
        batch.clear();
        let Some(mut pending) = self.pending.try_lock() else {
            return 0;
        };
        pending.give(batch);
        self.lost.swap(0, Ordering::SeqCst)
    }
}
