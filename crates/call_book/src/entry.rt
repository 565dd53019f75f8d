// One call of a book.
ghost use Rattle.std.specs.Prelude.{◌≡◌};
ghost use Rattle.call_book.specs.Entries.{stage_of, is_done};
ghost use Rattle.call_book.specs.Replies.{stage_reply, IsAnswer};

use crate::copying::copy_response;
use crate::event::BookReply;
use crate::lane::LaneName;
use http_edge::HttpResponse;
use std::alloc::Global;

/// The most bytes of a body that is kept.
pub(crate) const MOST_BODY: usize = 65536;

/// How far a call is.
#[derive(Drop)]
pub enum CallStage {
    /// It was begun and isn't finished.
    Running,
    /// It is done, with this response.
    Kept { response: HttpResponse },
    /// It is done, with this status; the body had more than 65,536 bytes and isn't kept.
    Gone { status: u16 },
}

/// A call that was begun.
#[derive(Drop)]
pub struct CallEntry {
    /// Its lane.
    pub lane: LaneName,
    /// Its number in the lane.
    pub number: u64,
    /// How far it is.
    pub stage: CallStage,
}

impl CallStage {
    /// Whether the call is done.
    pub(crate) fn is_done(&self) -> bool
        ensures { result ≡ is_done self.now }
    {
        match self {
            CallStage::Running => false,
            CallStage::Kept { .. } => true,
            CallStage::Gone { .. } => true,
        }
    }

    /// What a repeat of the call is answered. Only a copy of a kept response takes memory.
    pub(crate) fn reply(&self, alloc: Global) -> BookReply
        ensures { IsAnswer (stage_reply self.now) result }
    {
        match self {
            CallStage::Running => BookReply::Running,
            CallStage::Kept { response } => match copy_response(alloc, response) {
                Ok(response) => BookReply::Kept { response },
                Err(_) => BookReply::OutOfMemory,
            },
            CallStage::Gone { status } => BookReply::Gone { status: *status },
        }
    }
}

/// The stage of a call with this response; takes no memory.
pub(crate) fn stage_of(response: HttpResponse) -> CallStage
    ensures { result ≡ stage_of response }
{
    if response.body.as_slice().len() > MOST_BODY {
        return CallStage::Gone {
            status: response.status,
        };
    }
    CallStage::Kept { response }
}
