// What the fakes of a trial share, and when each does what.
use super::scenes;
use super::silence::Silence;
use std::alloc::Global;
use std::sync::Mutex;
use std::sync::atomic::{AtomicBool, AtomicU64, Ordering};
use std::thread;

/// What is tried.
#[derive(Clone, Copy, PartialEq, Eq)]
pub(crate) enum Trial {
    /// Two callers of two actors. The application answers its first call once it has a second one.
    TwoActors,
    /// Two callers of one actor without reentrancy. The application looks for a second call before it answers one.
    OneActor,
    /// Two callers of two actors, at a sidecar that serves one connection of a port at a time. The application looks for a
    /// second call before it answers one.
    OneAtOnce,
    /// One caller, whose actor moves to another host while the application works. The application answers once the turn's
    /// time to drain is over.
    Moved,
    /// One caller. The placement refuses the sidecar while the application works, which answers once the sidecar has
    /// stopped.
    Refused,
    /// One caller. The placement gets silent while the application works, which answers once the sidecar has stopped.
    Silent(Silence),
}

// How often the application looks for what it waits for, with a yield between two looks.
const LOOKS: u64 = 10_000_000;

// How often it looks for a call that isn't to come.
const IDLE_LOOKS: u64 = 100_000;

// How far the moment goes on with each answer of the placement after a table that moves the actor, in milliseconds.
const STEP_MS: u64 = 1_000;

// The moment at which a turn is over that has 60,000 milliseconds to drain from the moment 0: the turn with the placement
// after that time has been answered.
const DRAINED_MS: u64 = 62_000;

/// What the fakes of a trial share.
#[derive(Drop)]
pub(crate) struct Stage {
    pub(crate) trial: Trial,
    // The moment that the clocks show.
    moment: AtomicU64,
    // How many frames the placement has answered, and how many of them since the application had a call.
    frames: AtomicU64,
    moves: AtomicU64,
    // How many calls the application has had, how many it hasn't answered, and whether it had two of these at once.
    calls: AtomicU64,
    open: AtomicU64,
    together: AtomicBool,
    // Whether a port of the sidecar was dialled.
    woken: AtomicBool,
    /// What the callers were written.
    pub(crate) first: Mutex<Vec<u8>>,
    pub(crate) second: Mutex<Vec<u8>>,
}

impl Stage {
    pub(crate) fn new(alloc: Global, trial: Trial) -> Stage {
        Stage {
            trial,
            moment: AtomicU64::new(0),
            frames: AtomicU64::new(0),
            moves: AtomicU64::new(0),
            calls: AtomicU64::new(0),
            open: AtomicU64::new(0),
            together: AtomicBool::new(false),
            woken: AtomicBool::new(false),
            first: Mutex::new(Vec::new(alloc)),
            second: Mutex::new(Vec::new(alloc)),
        }
    }

    /// The moment that the clocks show, in milliseconds.
    pub(crate) fn moment(&self) -> u64 {
        self.moment.load(Ordering::SeqCst)
    }

    /// Whether the application had two calls at once.
    pub(crate) fn had_two_at_once(&self) -> bool {
        self.together.load(Ordering::SeqCst)
    }

    /// A port of the sidecar was dialled.
    pub(crate) fn wake(&self) {
        self.woken.store(true, Ordering::SeqCst);
    }

    /// Whether one was.
    pub(crate) fn is_woken(&self) -> bool {
        self.woken.load(Ordering::SeqCst)
    }

    /// The number of a call that comes to the application, from 0.
    pub(crate) fn call(&self) -> u64 {
        if self.open.fetch_add(1, Ordering::SeqCst) > 0 {
            self.together.store(true, Ordering::SeqCst);
        }
        self.calls.fetch_add(1, Ordering::SeqCst)
    }

    // Whether the application has what it waits for before it answers this call.
    fn is_ready(&self, call: u64) -> bool {
        match self.trial {
            Trial::TwoActors => call > 0 || self.calls.load(Ordering::SeqCst) > 1,
            Trial::OneActor | Trial::OneAtOnce => self.open.load(Ordering::SeqCst) > 1,
            Trial::Moved => self.moment() >= DRAINED_MS,
            Trial::Refused | Trial::Silent(_) => self.is_woken(),
        }
    }

    // Looks this often whether it has that.
    fn look(&self, call: u64, looks: u64) -> bool {
        for _ in 0..looks {
            if self.is_ready(call) {
                return true;
            }
            thread::yield_now();
        }
        false
    }

    /// What the application answers to this call: nothing if what it waits for didn't come.
    pub(crate) fn answer(&self, call: u64) -> &'static [u8] {
        let answer = match self.trial {
            Trial::OneActor | Trial::OneAtOnce => {
                self.look(call, IDLE_LOOKS);
                scenes::RESULT
            }
            _ => {
                if self.look(call, LOOKS) {
                    scenes::RESULT
                } else {
                    scenes::NOTHING
                }
            }
        };
        self.open.fetch_sub(1, Ordering::SeqCst);
        answer
    }

    // What a placement answers that gets silent.
    fn place_until_silent(&self, silence: Silence) -> &'static [u8] {
        let frame = self.moves.fetch_add(1, Ordering::SeqCst);
        self.moment
            .store(silence.moment_at(frame), Ordering::SeqCst);
        if silence.answers(frame) {
            return scenes::IDLE;
        }
        scenes::NOTHING
    }

    // What the placement answers once the application has a call.
    fn place_at_work(&self) -> &'static [u8] {
        match self.trial {
            Trial::TwoActors | Trial::OneActor | Trial::OneAtOnce => scenes::IDLE,
            Trial::Refused => scenes::NOT_MEMBER,
            Trial::Silent(silence) => self.place_until_silent(silence),
            Trial::Moved => match self.moves.fetch_add(1, Ordering::SeqCst) {
                0 => scenes::LOCK_2,
                1 => scenes::UPDATE_2,
                _ => {
                    self.moment.fetch_add(STEP_MS, Ordering::SeqCst);
                    scenes::IDLE
                }
            },
        }
    }

    /// What the placement answers to a frame: a round first, and then that there is nothing to do.
    pub(crate) fn place(&self, frame: &[u8]) -> &'static [u8] {
        if frame.get(scenes::KIND_AT) == Some(&scenes::LEAVE) {
            return scenes::GONE;
        }
        match self.frames.fetch_add(1, Ordering::SeqCst) {
            0 => scenes::LOCK_1,
            1 => scenes::UPDATE_1,
            2 => scenes::UNLOCK_1,
            _ => {
                if self.calls.load(Ordering::SeqCst) == 0 {
                    return scenes::IDLE;
                }
                self.place_at_work()
            }
        }
    }
}
