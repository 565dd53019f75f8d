// What happens to a book of forwarded calls, and what it answers.
use actor_names::Member;
use http_edge::HttpResponse;

/// What happens to a book. A call is named by the member and the part that forwarded it, and a number that this part
/// draws once.
#[derive(Drop)]
pub enum BookEvent {
    /// A forwarded call comes in, for the first time or again.
    Begin {
        origin: Member,
        part: u8,
        number: u64,
    },
    /// The call that was answered `New` has this response.
    Finish {
        origin: Member,
        part: u8,
        number: u64,
        response: HttpResponse,
    },
}

/// What a book answers. All but `New` and `Finished` leave it as it was.
#[derive(Drop)]
pub enum BookReply {
    /// The call is new and runs now: whoever began it acts, and then gives a Finish.
    New,
    /// The call runs already.
    Running,
    /// The call was finished with this response.
    Kept { response: HttpResponse },
    /// The call was finished with this status, and its response was too long to be kept.
    Gone { status: u16 },
    /// The number is at most the floor of its lane: that call may have acted.
    TooOld { floor: u64 },
    /// The node has forwarded calls in a later boot, the greatest so far.
    OldBoot { greatest: u64 },
    /// The lane is new, and there are 4,096 lanes.
    LanesFull { n: u32 },
    /// There are 4,096 calls, and all of them run.
    BookFull { running: u32 },
    /// The call was running, and its response is kept.
    Finished,
    /// No such call runs.
    NotBegun,
    /// Out of memory. Only a Begin that would be answered `New` or `Kept` is answered so.
    OutOfMemory,
}
