// Lines in order, in memory that is there from the start.
ghost use Rattle.std.specs.Prelude.{◌≡◌, ◌<◌, ◌≤◌, ◌++◌, ◌∷◌, [], true, false, length, IfOk};

use crate::notice::Notice;
use std::alloc::{AllocError, Global};
use std::marker::Model;
use std::mem;

/// The most lines that a log keeps until they are taken.
pub const MOST_LINES: usize = 256;

/// An event of a server, and the moment at which it was said, in milliseconds since 1970.
#[derive(Clone, Copy)]
pub struct Line {
    /// When it was said, as far as the log was told the time.
    pub at_ms: u64,
    /// What happened.
    pub notice: Notice,
}

/// Lines in the order in which they were said, up to `MOST_LINES`; contracts see them as a list.
#[derive(Drop)]
pub struct Batch {
    lines: Vec<Line>,
}

impl Model for Batch {
    ghost use Rattle.std.specs.Prelude.{◌≤◌, List, vec_capacity};
    ghost use Rattle.event_log.specs.declared.batch.Line.{Line};

    ghost Value = { List Line };

    ghost view = { λ b. b.lines.items };

    ghost invariant = { λ b. 256 ≤ vec_capacity b.lines };
}

impl Batch {
    /// No lines yet. The memory for all of them is taken now.
    pub fn new(alloc: Global) -> Result<Batch, AllocError>
        ensures { IfOk result (λ b. b ≡ []) }
    {
        Ok(Batch {
            lines: Vec::with_capacity(alloc, MOST_LINES)?,
        })
    }

    /// The lines.
    pub fn as_slice(&self) -> &[Line]
        ensures { result.now ≡ self.now }
    {
        self.lines.as_slice()
    }

    // Drops all lines.
    pub(crate) fn clear(&mut self)
        ensures { self.new ≡ [] }
    {
        self.lines.clear();
    }

    // Adds a line, and answers whether there was room for it. It takes no memory.
    pub(crate) fn add(&mut self, at_ms: u64, notice: Notice) -> bool
        ensures kept { length self.old < MOST_LINES → (result ≡ true) × (self.new ≡ self.old ++ (record { at_ms = at_ms; notice = notice }) ∷ []) }
        ensures full { MOST_LINES ≤ length self.old → (result ≡ false) × (self.new ≡ self.old) }
    {
        if self.lines.len() >= MOST_LINES {
            return false;
        }
        self.lines.push(Line { at_ms, notice }).unwrap();
        true
    }

    // Gives all lines to an empty batch.
    pub(crate) fn give(&mut self, to: &mut Batch)
        requires { to.old ≡ [] }
        ensures given { to.new ≡ self.old }
        ensures none_left { self.new ≡ [] }
    {
        mem::swap(self, to);
    }
}
