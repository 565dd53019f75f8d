// How long a connection waits, and when it is given up.
use crate::waits::Waits;
use std::alloc::Global;
use std::io;
use std::io::ErrorKind;
use std::net::TcpStream;
use std::sync::Arc;
use std::sync::atomic::{AtomicBool, Ordering};
use std::time::{Clock, Duration, Instant};

// The longest that a read or write of the library waits before it is looked whether to go on, in milliseconds.
const LONGEST_LOOK_MS: u64 = 500;

// How many bytes of a message bring it a second more.
const BYTES_A_SECOND: u64 = 65_536;

// How long one read or write of the library waits.
pub(super) fn look_ms(waits: Waits) -> u64 {
    match waits.quiet_ms {
        Some(ms) => ms.max(1).min(LONGEST_LOOK_MS),
        None => LONGEST_LOOK_MS,
    }
}

// Whether the loops over reads and writes go on.
pub(super) trait Patience {
    // So many bytes of a message have come, or are to be written.
    fn moves(&mut self, count: usize);

    // The message is over.
    fn rests(&mut self);

    // Whether to give up, after so many looks in a row at which no byte came or went.
    fn is_over(&self, looks: u64) -> bool;
}

// Gives up where nothing comes or goes in time.
#[derive(Drop)]
pub(super) struct Impatient;

impl Patience for Impatient {
    fn moves(&mut self, _count: usize) {}

    fn rests(&mut self) {}

    fn is_over(&self, looks: u64) -> bool {
        looks > 0
    }
}

// What a connection has waited, by a clock, and whether it is still wanted: it isn't once `ended` is true. One that is made
// after that, and has an end of its own, is.
#[derive(Drop)]
pub(super) struct Pace<C: Clock + Copy> {
    clock: C,
    ended: Arc<AtomicBool, Global>,
    is_last: bool,
    waits: Waits,
    made: Option<Instant>,
    began: Option<Instant>,
    moved: u64,
}

impl<C: Clock + Copy> Pace<C> {
    // That of a connection that begins now.
    pub(super) fn new(clock: C, ended: Arc<AtomicBool, Global>, waits: Waits) -> Pace<C> {
        let is_last = ended.load(Ordering::SeqCst) && waits.whole_ms.is_some();
        Pace {
            clock,
            ended,
            is_last,
            waits,
            made: Instant::now(&clock).ok(),
            began: None,
            moved: 0,
        }
    }

    // That of the same connection, used anew.
    pub(super) fn again(self, waits: Waits) -> Pace<C> {
        Pace::new(self.clock, self.ended, waits)
    }

    // How it waits.
    pub(super) fn waits(&self) -> Waits {
        self.waits
    }

    // Whether so many milliseconds are over since then.
    fn is_past(&self, since: Option<Instant>, ms: Option<u64>) -> bool {
        let (Some(since), Some(ms)) = (since, ms) else {
            return false;
        };
        match since.elapsed(&self.clock) {
            Ok(past) => past >= Duration::from_millis(ms),
            Err(_) => false,
        }
    }
}

impl<C: Clock + Copy> Patience for Pace<C> {
    fn moves(&mut self, count: usize) {
        self.moved = self.moved.saturating_add(count as u64);
        if self.began.is_none() {
            self.began = Instant::now(&self.clock).ok();
        }
    }

    fn rests(&mut self) {
        self.moved = 0;
        self.began = None;
    }

    fn is_over(&self, looks: u64) -> bool {
        if !self.is_last && self.ended.load(Ordering::SeqCst) {
            return true;
        }
        let quiet = looks.saturating_mul(look_ms(self.waits));
        if self.waits.quiet_ms.is_some_and(|ms| quiet >= ms) {
            return true;
        }
        let more_ms = (self.moved / BYTES_A_SECOND).saturating_mul(1_000);
        let message_ms = self.waits.message_ms.map(|ms| ms.saturating_add(more_ms));
        self.is_past(self.began, message_ms) || self.is_past(self.made, self.waits.whole_ms)
    }
}

// Whether a stream is open, and nothing has come over it that nobody has read.
pub(super) fn is_still(stream: &TcpStream) -> bool {
    if stream.set_nonblocking(true).is_err() {
        return false;
    }
    let is_still = match stream.peek(&mut [0]) {
        Ok(_) => false,
        Err(error) => error.kind() == ErrorKind::WouldBlock,
    };
    stream.set_nonblocking(false).is_ok() && is_still
}

// Makes each read and write of a new stream come back after a while, so that it can be looked whether to go on.
pub(super) fn set_looks(stream: &TcpStream, waits: Waits) -> io::Result<()> {
    let wait = Some(Duration::from_millis(look_ms(waits)));
    stream.set_read_timeout(wait)?;
    stream.set_write_timeout(wait)
}

// What is to be done after an error of a stream.
#[derive(Clone, Copy)]
pub(super) enum Remedy {
    // To try again.
    Again,
    // To look whether to go on.
    Look,
    // The stream has failed.
    GiveUp,
}

pub(super) fn remedy_for(error: &io::Error) -> Remedy {
    match error.kind() {
        ErrorKind::Interrupted => Remedy::Again,
        ErrorKind::WouldBlock | ErrorKind::TimedOut => Remedy::Look,
        _ => Remedy::GiveUp,
    }
}
