// The calls of a book, in the order in which they began.
ghost use Rattle.std.specs.Prelude.{◌≡◌, ◌≢◌, [], None, option_copied, option_map, IfOk, OnErr};
ghost use Rattle.call_book.specs.declared.standing.Room.TheVariants.{Full};
ghost use Rattle.call_book.specs.Entries.{entry_at, without_lane, with_stage};
ghost use Rattle.call_book.specs.Book.{runs};
ghost use Rattle.call_book.specs.Turns.{room_by, room_of, base_of, added, base_rows, cleared};

use crate::entry::{CallEntry, CallStage};
use crate::lane::LaneName;
use crate::row::Row;
use crate::rows::Rows;
use crate::standing::Room;
use actor_names::OutOfMemory;
use search_tree::leaf;
use std::alloc::Global;
use std::marker::Model;

/// The greatest number of calls.
pub(crate) const MOST_CALLS: u32 = 4096;

/// Calls in the order in which they began, at most 4,096.
#[derive(Drop)]
pub(crate) struct Calls {
    rows: Rows,
    // The turn of the next call.
    next: u64,
}

impl Model for Calls {
    ghost use Rattle.std.specs.Prelude.{List};
    ghost use Rattle.call_book.specs.declared.entry.CallEntry.{CallEntry};
    ghost use Rattle.call_book.specs.Turns.{entries_of, AreEarlier};

    ghost Value = { List CallEntry };

    ghost view = { λ a. entries_of a.rows };

    ghost invariant = { λ a. AreEarlier a.next a.rows };
}

// The room that the first row whose call is done makes, if there is one.
fn room_by(first: Option<&Row>) -> Room
    ensures { result ≡ room_by (option_map (λ r. r.entry) (option_copied first.entry)) }
{
    match first {
        None => Room::Full,
        Some(row) => Room::Dropping {
            lane: row.entry.lane.copy(),
            number: row.entry.number,
        },
    }
}

impl Calls {
    /// No calls; takes no memory.
    pub(crate) fn new() -> Calls
        ensures { result ≡ [] }
    {
        Calls {
            rows: Rows::new(),
            next: 0,
        }
    }

    /// The call of a lane and a number.
    pub(crate) fn get(&self, lane: &LaneName, number: u64) -> Option<&CallEntry>
        ensures { option_copied result ≡ entry_at lane.now number self.now }
    {
        self.rows.in_order();
        match self.rows.get(lane, number) {
            None => None,
            Some(row) => Some(&row.entry),
        }
    }

    /// Whether the call of a lane and a number runs.
    pub(crate) fn runs(&self, lane: &LaneName, number: u64) -> bool
        ensures { result ≡ runs (entry_at lane.now number self.now) }
    {
        match self.get(lane, number) {
            None => false,
            Some(entry) => !entry.stage.is_done(),
        }
    }

    // The room for one more call.
    fn room(&self) -> Room
        ensures { result ≡ room_of self.now }
    {
        if self.rows.len() < MOST_CALLS {
            return Room::Free;
        }
        room_by(self.rows.first())
    }

    /// The room for one more call, in a bare lane after the calls of the lane went.
    pub(crate) fn room_in(&self, lane: &LaneName, bare: bool) -> Room
        ensures { result ≡ room_of (base_of bare lane.now self.now) }
    {
        self.rows.in_order();
        if !bare {
            return self.room();
        }
        if self.rows.count_in(lane) > 0 {
            return Room::Free;
        }
        self.room()
    }

    /// Adds a call that runs from now on, in a bare lane after the calls of the lane went, and returns the room that was
    /// made. If there is none, nothing changes. After 2^64 - 1 calls there is no memory for another.
    pub(crate) fn add(
        &mut self,
        alloc: Global,
        lane: &LaneName,
        number: u64,
        bare: bool,
    ) -> Result<Room, OutOfMemory>
        requires { entry_at lane.now number (base_of bare lane.now self.old) ≡ None }
        ensures room { IfOk result (λ room. room ≡ room_of (base_of bare lane.now self.old)) }
        ensures ok { IfOk result (λ room. self.new ≡ added room lane.now number (base_of bare lane.now self.old) self.old) }
        ensures err { OnErr result (self.new ≡ self.old) }
        ensures cause { OnErr result (room_of (base_of bare lane.now self.old) ≢ Full) }
    {
        self.rows.in_order();
        let room = self.room_in(lane, bare);
        if let Room::Full = room {
            return Ok(Room::Full);
        }
        if self.next == u64::MAX {
            return Err(OutOfMemory);
        }
        let entry = CallEntry {
            lane: lane.copy(),
            number,
            stage: CallStage::Running,
        };
        let row = Row {
            entry,
            turn: self.next,
        };
        let node = leaf(alloc, row)?;
        clear_lane(&mut self.rows, lane, bare);
        clear_room(&mut self.rows, &room);
        self.rows.put(node);
        self.next += 1;
        Ok(room)
    }

    /// The call of a lane and a number is at this stage now; takes no memory.
    pub(crate) fn set_stage(&mut self, lane: &LaneName, number: u64, stage: CallStage)
        ensures { self.new ≡ with_stage lane.now number stage self.old }
    {
        self.rows.set_stage(lane, number, stage);
    }
}

// The calls of a bare lane go.
fn clear_lane(rows: &mut Rows, lane: &LaneName, bare: bool)
    ensures { rows.new ≡ base_rows bare lane.now rows.old }
{
    if bare {
        rows.remove_lane(lane);
    }
}

// The call that makes room goes.
fn clear_room(rows: &mut Rows, room: &Room)
    ensures { rows.new ≡ cleared room.now rows.old }
{
    if let Room::Dropping { lane, number } = room {
        rows.remove(lane, *number);
    }
}
