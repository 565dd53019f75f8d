// The numbers that a lane keeps, in a ring whose memory is taken once.
ghost use Rattle.std.specs.Prelude.{◌≡◌, ◌<◌, ◌≤◌, ◌==◌, [], ◌∷◌, ◌++◌, length, IfOk};
ghost use Rattle.stamp_lanes.specs.Kept.{kept_answer, IsWithoutFirst};

use crate::answer::{KeptNumber, LaneAnswer};
use actor_names::OutOfMemory;
use std::alloc::Global;
use std::collections::VecDeque;
use std::marker::Model;

/// The most numbers that a lane keeps.
pub const MOST_KEPT: u16 = 256;

/// Numbers and their answers in the order in which they were accepted, at most 256; contracts see the list of them.
#[derive(Drop)]
pub struct KeptNumbers {
    ring: VecDeque<KeptNumber>,
}

impl Model for KeptNumbers {
    ghost use Rattle.std.specs.Prelude.{◌≤◌, List, length};
    ghost use Rattle.std.specs.VecDeque.{deque_capacity};
    ghost use Rattle.stamp_lanes.specs.declared.answer.KeptNumber.{KeptNumber};

    ghost Value = { List KeptNumber };

    ghost view = { λ a. a.ring.items };

    ghost invariant = { λ a. (length a.ring.items ≤ 256) × (256 ≤ deque_capacity a.ring) };
}

/// The answer that is kept of a number among these.
pub(crate) fn answer_in(kept: &[KeptNumber], number: u64) -> Option<LaneAnswer>
    ensures { result ≡ kept_answer number kept.now }
{
    for k in kept {
        if k.number == number {
            return Some(k.answer);
        }
    }
    None
}

impl KeptNumbers {
    /// No number yet, and the memory for 256.
    pub(crate) fn new(alloc: Global) -> Result<KeptNumbers, OutOfMemory>
        ensures { IfOk result (λ numbers. numbers ≡ []) }
    {
        let ring = VecDeque::with_capacity(alloc, MOST_KEPT as usize)?;
        Ok(KeptNumbers { ring })
    }

    /// These numbers, with memory for 256.
    pub(crate) fn of(mut kept: Vec<KeptNumber>) -> Result<KeptNumbers, OutOfMemory>
        requires { length kept.items ≤ 256 }
        ensures { IfOk result (λ numbers. numbers ≡ kept.items) }
    {
        kept.reserve_exact(MOST_KEPT as usize - kept.len())?;
        let ring = VecDeque::from_vec(kept);
        Ok(KeptNumbers { ring })
    }

    /// How many there are.
    pub fn len(&self) -> u16
        ensures { result ≡ length self.now }
    {
        self.ring.len() as u16
    }

    /// Whether there is none.
    pub fn is_empty(&self) -> bool
        ensures { result ≡ (length self.now == 0) }
    {
        self.ring.is_empty()
    }

    /// All numbers, in two pieces.
    pub fn as_slices(&self) -> (&[KeptNumber], &[KeptNumber])
        ensures { self.now ≡ result.0.now ++ result.1.now }
    {
        self.ring.as_slices()
    }

    /// The answer that is kept of a number.
    pub fn answer(&self, number: u64) -> Option<LaneAnswer>
        ensures { result ≡ kept_answer number self.now }
    {
        let (first, second) = self.ring.as_slices();
        match answer_in(first, number) {
            Some(answer) => Some(answer),
            None => answer_in(second, number),
        }
    }

    /// Takes all numbers out.
    pub(crate) fn clear(&mut self)
        ensures { self.new ≡ [] }
    {
        self.ring.clear();
    }

    /// Takes off the first number.
    pub(crate) fn take_first(&mut self) -> Option<KeptNumber>
        ensures { IsWithoutFirst self.old self.new result }
    {
        self.ring.pop_front()
    }

    /// Puts a number at the end. It takes no memory.
    pub(crate) fn push(&mut self, kept: KeptNumber)
        requires { length self.old < 256 }
        ensures { self.new ≡ self.old ++ kept ∷ [] }
    {
        let KeptNumber { number, answer } = kept;
        self.ring.push_back_reserved(KeptNumber { number, answer });
    }
}
