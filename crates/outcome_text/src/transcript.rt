// What a replay is to write next, line by line.
ghost use Rattle.std.specs.Prelude.{◌≡◌, ◌++◌, [], length, OnOk, OnErr};
ghost use Rattle.outcome_text.specs.Outcomes.{turn_text, outcome_text, bad_line_text};

use crate::line_buffer::OutcomeLine;
use crate::outcomes::add_outcome;
use crate::turn_outcomes::{write_bad_line, write_turn_outcome};
use std::alloc::{AllocError, Global};
use std::marker::Model;
use world_events::{Outcome, TurnOutcome};

/// The lines that wait to be written. Each line is added whole or not at all.
#[derive(Drop)]
pub struct Transcript {
    text: Vec<u8>,
    line: OutcomeLine,
}

impl Model for Transcript {
    ghost use Rattle.std.specs.Prelude.{List, ℕ};

    ghost Value = { List ℕ };

    ghost view = { λ a. a.text.items };
}

impl Transcript {
    /// An empty transcript.
    pub fn new(alloc: Global) -> Transcript
        ensures { result ≡ [] }
    {
        Transcript {
            text: Vec::new(alloc),
            line: OutcomeLine::new(),
        }
    }

    /// The bytes of the lines.
    pub fn as_slice(&self) -> &[u8]
        ensures { result.now ≡ self.now }
    {
        self.text.as_slice()
    }

    /// How many bytes the lines have.
    pub fn len(&self) -> usize
        ensures { result ≡ length self.now }
    {
        self.text.len()
    }

    /// Removes all lines.
    pub fn clear(&mut self)
        ensures { self.new ≡ [] }
    {
        self.text.clear();
    }

    /// Adds the line of a turn's outcome.
    pub fn add_turn_outcome(&mut self, outcome: &TurnOutcome) -> Result<(), AllocError>
        ensures added { OnOk result (self.new ≡ self.old ++ turn_text outcome.now) }
        ensures unchanged { OnErr result (self.new ≡ self.old) }
    {
        write_turn_outcome(&mut self.line, outcome);
        self.text.extend_from_slice(self.line.as_slice())
    }

    /// Adds an outcome's line.
    pub fn add_outcome(&mut self, outcome: &Outcome) -> Result<(), AllocError>
        ensures added { OnOk result (self.new ≡ self.old ++ outcome_text outcome.now) }
        ensures unchanged { OnErr result (self.new ≡ self.old) }
    {
        add_outcome(&mut self.line, &mut self.text, outcome)
    }

    /// Adds the line that reports a refused line.
    pub fn add_bad_line(&mut self, line: u64, column: u64) -> Result<(), AllocError>
        ensures added { OnOk result (self.new ≡ self.old ++ bad_line_text line column) }
        ensures unchanged { OnErr result (self.new ≡ self.old) }
    {
        write_bad_line(&mut self.line, line, column);
        self.text.extend_from_slice(self.line.as_slice())
    }
}
