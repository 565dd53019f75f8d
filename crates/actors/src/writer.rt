// What writes the log of a server to standard error.
use actor_ports::{Clock as PortClock, SystemClock};
use event_log::{Batch, EventLog, Line, push_line, push_lost};
use std::alloc::Global;
use std::sync::atomic::{AtomicBool, Ordering};
use std::sync::{Arc, Wait};
use std::thread::Threads;
use std::time::{Clock, Duration};
use std::{str, thread};

/// How long the writer sleeps between two looks at the log, in milliseconds.
const LOOK_MS: u64 = 100;

/// How long the clock of the log sleeps: the moment of a line is at most so many milliseconds before the event.
const TICK_MS: u64 = 20;

/// How long the end of the program waits for the last lines, in milliseconds, and how long between two looks.
const LAST_MS: u64 = 300;

const LAST_LOOK_MS: u64 = 10;

/// What the program and the writer of its log share: the log, whether the program is over, and whether all was written
/// behind that.
#[derive(Drop)]
pub(crate) struct Writing {
    pub(crate) log: EventLog,
    is_over: AtomicBool,
    is_written: AtomicBool,
}

impl Writing {
    /// Nothing was said and nothing written.
    pub(crate) fn new(log: EventLog) -> Writing {
        Writing {
            log,
            is_over: AtomicBool::new(false),
            is_written: AtomicBool::new(false),
        }
    }
}

// Sleeps so many milliseconds.
fn sleep<R: Clock>(rt: &R, ms: u64) {
    thread::sleep(rt, Duration::from_millis(ms));
}

// Tells the log the time, for as long as the program runs.
fn keep_time<R: Clock + Wait + Copy + Send>(rt: R, writing: &Writing) {
    let mut clock = SystemClock::new(rt);
    for _ in rt.forever() {
        writing.log.set_now(clock.now_ms());
        sleep(&rt, TICK_MS);
    }
}

// Writes a text to standard error. What can't be written is given up: there is nowhere to say so.
fn write_text<R: Eprint>(rt: &R, text: &[u8]) {
    if let Ok(text) = str::from_utf8(text) {
        let _ = rt.eprint(text);
    }
}

// Writes a line; without memory for it nothing.
fn write_line<R: Eprint>(rt: &R, alloc: Global, line: &Line) {
    let mut text = Vec::new(alloc);
    if push_line(alloc, &mut text, line).is_ok() {
        write_text(rt, text.as_slice());
    }
}

// Writes how many lines were lost.
fn write_lost<R: Eprint>(rt: &R, alloc: Global, at_ms: u64, lost: u64) {
    let mut text = Vec::new(alloc);
    if push_lost(alloc, &mut text, at_ms, lost).is_ok() {
        write_text(rt, text.as_slice());
    }
}

// Writes what was said since the last look.
fn write_news<R: Eprint>(rt: &R, alloc: Global, log: &EventLog, batch: &mut Batch) {
    // Read first: no line that is said behind these bears an earlier moment.
    let now = log.now_ms();
    let lost = log.take(batch);
    for line in batch.as_slice() {
        write_line(rt, alloc, line);
    }
    if lost > 0 {
        write_lost(rt, alloc, now, lost);
    }
}

// Writes what is said until the program is over, and what was said up to then.
fn write_log<R: Eprint + Clock + Wait>(rt: &R, alloc: Global, writing: &Writing, batch: Batch) {
    let mut batch = batch;
    for _ in rt.forever() {
        let is_over = writing.is_over.load(Ordering::SeqCst);
        write_news(rt, alloc, &writing.log, &mut batch);
        if is_over {
            break;
        }
        sleep(rt, LOOK_MS);
    }
    writing.is_written.store(true, Ordering::SeqCst);
}

/// Starts the two threads of a log: one tells it the time, the other writes it to standard error. The program's end waits for
/// neither, since a pipe that nobody reads holds a writer up without an end. It answers whether the log is written: without
/// memory or a thread it isn't.
pub(crate) fn start_writing<
    R: Threads + Wait + Clock + Eprint + AllocGlobal + Copy + Send + Drop + 'static,
>(rt: R, writing: &Arc<Writing, Global>) -> bool {
    let (Ok(timed), Ok(written), Ok(batch)) = (
        Arc::try_clone(writing),
        Arc::try_clone(writing),
        Batch::new(rt.alloc()),
    ) else {
        return false;
    };
    // What is said before that thread's first turn bears this moment.
    let mut clock = SystemClock::new(rt);
    writing.log.set_now(clock.now_ms());
    thread::spawn(&rt, move || keep_time(rt, &timed)).is_ok()
        && thread::spawn(&rt, move || write_log(&rt, rt.alloc(), &written, batch)).is_ok()
}

/// Lets the last lines be written, which takes at most `LAST_MS` milliseconds and a pause.
pub(crate) fn end_writing<R: Clock>(rt: &R, writing: &Writing) {
    writing.is_over.store(true, Ordering::SeqCst);
    for _ in 0..LAST_MS / LAST_LOOK_MS {
        if writing.is_written.load(Ordering::SeqCst) {
            return;
        }
        sleep(rt, LAST_LOOK_MS);
    }
}
