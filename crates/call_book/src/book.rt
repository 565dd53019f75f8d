// The book of forwarded calls.
ghost use Rattle.std.specs.Prelude.{◌≡◌, ◌<◌, ◌≤◌, ℕ, [], ◌∷◌, ◌++◌, true, false, length, is_some};
ghost use Rattle.actor_names.specs.declared.member.Member.{Member};
ghost use Rattle.step_gate.specs.History.{entry};
ghost use Rattle.call_book.specs.declared.event.BookEvent.TheVariants.{Begin, Finish};
ghost use Rattle.call_book.specs.Lanes.{lane_at, has_boot, floor_of};
ghost use Rattle.call_book.specs.Replies.{IsAnswer};
ghost use Rattle.call_book.specs.Book.{new_book, renewed, with_room, with_call, call_reply, begin_step, is_kept};
ghost use Rattle.call_book.specs.Machine.{IsStepOf, BookMoves};
ghost use Rattle.call_book.specs.Histories.{BookHistory, LeadsTo, times_new, response_of, repeat_reply};

use crate::calls::{Calls, MOST_CALLS};
use crate::entry::stage_of;
use crate::event::{BookEvent, BookReply};
use crate::lane::{CallLane, LaneName, lane_of};
use crate::lanes::{Lanes, MOST_LANES};
use crate::standing::{Room, Standing};
use actor_names::Member;
use http_edge::HttpResponse;
use search_tree::leaf;
use std::alloc::Global;
use std::marker::Model;

/// The calls that other sidecars forwarded here: those that run, and the answers of those that are done, so that a call
/// that is forwarded again acts no second time. At most 4,096 lanes and 4,096 calls; what is kept lives as long as this
/// process. Own, after the notion of an idempotency key.
#[derive(Drop)]
pub struct CallBook {
    lanes: Lanes,
    calls: Calls,
    alloc: Global,
}

impl Model for CallBook {
    ghost use Rattle.call_book.specs.Book.{CallBookState};

    ghost Value = { CallBookState };

    ghost view = { λ a. record { lanes = a.lanes; entries = a.calls } };
}

impl CallBook {
    /// An empty book; takes no memory.
    pub fn new(alloc: Global) -> CallBook
        ensures { result ≡ new_book }
    {
        CallBook {
            lanes: Lanes::new(),
            calls: Calls::new(),
            alloc,
        }
    }

    // A Begin in a lane that has its boot, and this floor.
    fn begin_current(&mut self, lane: &LaneName, floor: u64, number: u64) -> BookReply
        requires { floor ≡ floor_of (lane_at lane.now self.old.lanes) }
        ensures { IsStepOf (begin_step (call_reply self.old lane.now number) (with_call lane.now number (with_room self.old)) self.old) self.old result self.new }
    {
        if let Some(entry) = self.calls.get(lane, number) {
            return entry.stage.reply(self.alloc);
        }
        if number <= floor {
            return BookReply::TooOld { floor };
        }
        match self.calls.add(self.alloc, lane, number, false) {
            Err(_) => BookReply::OutOfMemory,
            Ok(Room::Full) => BookReply::BookFull {
                running: MOST_CALLS,
            },
            Ok(Room::Free) => BookReply::New,
            Ok(
                Room::Dropping {
                    lane: dropped,
                    number: its,
                },
            ) => {
                self.lanes.raise(&dropped, its);
                BookReply::New
            }
        }
    }

    // A Begin in a lane that is new or gets a greater boot.
    fn begin_bare(&mut self, lane: &LaneName, boot: u64, number: u64) -> BookReply
        requires { is_some (lane_at lane.now self.old.lanes) ≡ false → length self.old.lanes < 4096 }
        ensures { let book = renewed self.old lane.now boot in IsStepOf (begin_step (call_reply book lane.now number) (with_call lane.now number (with_room book)) self.old) self.old result self.new }
    {
        if number == 0 {
            return BookReply::TooOld { floor: 0 };
        }
        if let Room::Full = self.calls.room_in(lane, true) {
            return BookReply::BookFull {
                running: MOST_CALLS,
            };
        }
        let bare = CallLane {
            name: lane.copy(),
            boot,
            floor: 0,
        };
        let Ok(node) = leaf(self.alloc, bare) else {
            return BookReply::OutOfMemory;
        };
        match self.calls.add(self.alloc, lane, number, true) {
            Err(_) => BookReply::OutOfMemory,
            Ok(Room::Full) => BookReply::BookFull {
                running: MOST_CALLS,
            },
            Ok(Room::Free) => {
                self.lanes.put(node);
                BookReply::New
            }
            Ok(
                Room::Dropping {
                    lane: dropped,
                    number: its,
                },
            ) => {
                self.lanes.put(node);
                self.lanes.raise(&dropped, its);
                BookReply::New
            }
        }
    }

    // A forwarded call comes in.
    fn begin(&mut self, origin: &Member, part: u8, number: u64) -> BookReply
        ensures { BookMoves self.old (Begin origin.now part number) result self.new }
    {
        let lane = lane_of(origin, part);
        match self.lanes.standing(&lane, origin.boot) {
            Standing::Old { greatest } => BookReply::OldBoot { greatest },
            Standing::LanesFull => BookReply::LanesFull { n: MOST_LANES },
            Standing::Bare => self.begin_bare(&lane, origin.boot, number),
            Standing::Current { floor } => self.begin_current(&lane, floor, number),
        }
    }

    // A call that runs has this response; takes no memory.
    fn finish(
        &mut self,
        origin: &Member,
        part: u8,
        number: u64,
        response: HttpResponse,
    ) -> BookReply
        ensures { BookMoves self.old (Finish origin.now part number response) result self.new }
    {
        let lane = lane_of(origin, part);
        if !self.lanes.has_boot(&lane, origin.boot) {
            return BookReply::NotBegun;
        }
        if !self.calls.runs(&lane, number) {
            return BookReply::NotBegun;
        }
        self.calls.set_stage(&lane, number, stage_of(response));
        BookReply::Finished
    }

    // The call of an event.
    fn answer(&mut self, event: BookEvent) -> BookReply
        ensures { BookMoves self.old event result self.new }
    {
        match event {
            BookEvent::Begin {
                origin,
                part,
                number,
            } => self.begin(&origin, part, number),
            BookEvent::Finish {
                origin,
                part,
                number,
                response,
            } => self.finish(&origin, part, number, response),
        }
    }

    /// One step of the book. Its answer and what it leaves are those of `call_book_step`; only a Begin that would be
    /// answered `New` or `Kept` may run out of memory, and then the book is as before. Over every legal history a call
    /// is answered `New` at most once; and while its entry is kept, a Begin of it is answered `Running` before its
    /// Finish, and after it that Finish's response, or `Gone` with its status.
    pub fn step(&mut self, event: BookEvent) -> BookReply
        ensures moves { BookMoves self.old event result self.new }
        ensures once { (es : BookHistory) (by : ℕ) (origin : Member) (part number : ℕ) → LeadsTo es self.old → times_new origin part number (es ++ entry by event result ∷ []) ≤ 1 }
        ensures kept { (es : BookHistory) (origin : Member) (part number : ℕ) → LeadsTo es self.old → is_kept self.old origin part number ≡ true → event ≡ Begin origin part number → IsAnswer (repeat_reply (response_of origin part number es)) result }
    {
        self.answer(event)
    }
}
