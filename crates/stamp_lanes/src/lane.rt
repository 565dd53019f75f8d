// The lane of one part of a member.
ghost use Rattle.std.specs.Prelude.{◌≡◌, ◌≤◌, ◌<◌, length, IfOk};
ghost use Rattle.stamp_lanes.specs.Lanes.{new_lane, answered, look_lane, dropped, with_space, lane_after};

use crate::answer::{KeptNumber, LaneAnswer, StampLook};
use crate::error::StampError;
use crate::kept::{KeptNumbers, MOST_KEPT};
use actor_names::OutOfMemory;
use std::alloc::Global;

/// The numbers of one part of a member that were accepted last.
#[derive(Drop)]
pub struct Lane {
    /// The part.
    pub part: u8,
    /// The greatest number that was dropped, 0 before any.
    pub floor: u64,
    /// The numbers with their answers, in the order in which they were accepted; at most 256.
    pub kept: KeptNumbers,
}

/// How a number stands in a lane with this floor, which keeps this answer of it.
pub(crate) fn stands(
    number: u64,
    floor: u64,
    kept: Option<LaneAnswer>,
) -> Result<StampLook, StampError>
    ensures { result ≡ answered number floor kept }
{
    match kept {
        Some(answer) => Ok(StampLook::Kept { answer }),
        None => {
            if number <= floor {
                return Err(StampError::OldSeq { floor });
            }
            Ok(StampLook::Fresh)
        }
    }
}

impl Lane {
    /// A lane before its first number, and the memory for all that it will keep.
    pub(crate) fn new(alloc: Global, part: u8) -> Result<Lane, OutOfMemory>
        ensures { IfOk result (λ lane. lane ≡ new_lane part) }
    {
        let kept = KeptNumbers::new(alloc)?;
        Ok(Lane {
            part,
            floor: 0,
            kept,
        })
    }

    /// Makes it the lane of a part before its first number; takes no memory.
    pub(crate) fn begin(&mut self, part: u8)
        ensures { self.new ≡ new_lane part }
    {
        self.part = part;
        self.floor = 0;
        self.kept.clear();
    }

    /// How a number stands in this lane.
    pub(crate) fn look(&self, number: u64) -> Result<StampLook, StampError>
        ensures { result ≡ look_lane number self.now }
    {
        stands(number, self.floor, self.kept.answer(number))
    }

    // Drops the number that was accepted longest ago.
    fn drop_first(&mut self)
        ensures { self.new ≡ dropped self.old self.old.kept }
    {
        if let Some(first) = self.kept.take_first() {
            self.floor = self.floor.max(first.number);
        }
    }

    // Drops a number if there are 256.
    fn make_space(&mut self)
        requires { length self.old.kept ≤ 256 }
        ensures lane { self.new ≡ with_space self.old }
        ensures space { length self.new.kept < 256 }
    {
        if self.kept.len() >= MOST_KEPT {
            self.drop_first();
        }
    }

    /// Keeps the number, and drops another one if there are 256. It takes no memory.
    pub(crate) fn keep(&mut self, kept: KeptNumber)
        requires { length self.old.kept ≤ 256 }
        ensures { self.new ≡ lane_after self.old kept }
    {
        self.make_space();
        self.kept.push(kept);
    }
}
