// How waiting calls sleep, and how they are woken. No contract speaks of it, and every sleep ends by itself.
use state_machine::News;
use std::alloc::{AllocError, Global};
use std::sync::Wait;
use std::sync::atomic::{AtomicU64, Ordering};
use std::time::Duration;

/// How many bells a gate has. Topics share them.
const BELLS: usize = 64;

/// How often the longest sleep of a waiting call doubles, from one millisecond to 256. A bell ends a sleep at once; its
/// own end is for a call that found no memory to answer with, and asks again.
const DOUBLINGS: u32 = 8;

/// What calls wait at. Calls share a bell if they poll for topics that are equal modulo the number of bells.
#[derive(Drop)]
struct Bell {
    /// How often it was rung.
    rung: AtomicU64,
    /// How many calls listen.
    listeners: AtomicU64,
}

impl Bell {
    fn new() -> Bell {
        Bell {
            rung: AtomicU64::new(0),
            listeners: AtomicU64::new(0),
        }
    }

    // Wakes the calls that listen. A listener that counted itself in too late to be seen here polls after the step.
    fn ring(&self) {
        if self.listeners.load(Ordering::SeqCst) > 0 {
            self.rung.fetch_add(1, Ordering::SeqCst);
            self.rung.wake_all();
        }
    }
}

/// What a call listens to: a topic, and how often its bell had rung before the poll. It can't be dropped: a call that
/// listens has to `leave`.
pub(crate) struct Heard {
    topic: u64,
    rung: u64,
}

/// The bells of a gate, and how many calls wait for news or for the turn.
#[derive(Drop)]
pub(crate) struct Bells {
    bells: Vec<Bell>,
    /// How many calls listen to any bell.
    listeners: AtomicU64,
    /// How many calls sleep until the turn is free.
    pub(crate) asleep: AtomicU64,
}

impl Bells {
    pub(crate) fn new(alloc: Global) -> Result<Bells, AllocError> {
        let mut bells = Vec::with_capacity(alloc, BELLS)?;
        for _ in 0..BELLS {
            bells.push(Bell::new())?;
        }
        Ok(Bells {
            bells,
            listeners: AtomicU64::new(0),
            asleep: AtomicU64::new(0),
        })
    }

    fn bell(&self, topic: u64) -> Option<&Bell> {
        self.bells.get((topic % BELLS as u64) as usize)
    }

    /// The caller is about to poll. It listens from before its poll on, so that it misses no news.
    pub(crate) fn listen(&self, topic: u64) -> Heard {
        self.listeners.fetch_add(1, Ordering::SeqCst);
        match self.bell(topic) {
            None => Heard { topic, rung: 0 },
            Some(bell) => {
                bell.listeners.fetch_add(1, Ordering::SeqCst);
                let rung = bell.rung.load(Ordering::SeqCst);
                Heard { topic, rung }
            }
        }
    }

    /// Sleeps until the bell rings, for at most a time that grows with the tries, up to 256 milliseconds.
    pub(crate) fn rest<R: Wait>(&self, rt: &R, heard: &Heard, tries: u32) {
        if let Some(bell) = self.bell(heard.topic) {
            let longest = Duration::from_millis(1 << tries.min(DOUBLINGS));
            let low = (heard.rung % (1 << 32)) as u32;
            bell.rung.park_timeout(rt, low, longest);
        }
    }

    /// The caller listens no more.
    pub(crate) fn leave(&self, heard: Heard) {
        let Heard { topic, rung: _ } = heard;
        self.listeners.fetch_sub(1, Ordering::SeqCst);
        if let Some(bell) = self.bell(topic) {
            bell.listeners.fetch_sub(1, Ordering::SeqCst);
        }
    }

    /// A step was made, and its reply is this news.
    pub(crate) fn ring(&self, news: News) {
        if self.listeners.load(Ordering::SeqCst) == 0 {
            return;
        }
        match news {
            News::Nobody => {}
            News::Topic(topic) => {
                if let Some(bell) = self.bell(topic) {
                    bell.ring();
                }
            }
            News::Everybody => {
                for bell in self.bells.iter() {
                    bell.ring();
                }
            }
        }
    }
}
