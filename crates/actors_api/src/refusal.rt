// Why a request isn't served.
ghost use Rattle.std.specs.Prelude.{◌≡◌};
ghost use Rattle.actors_api.specs.Refusals.{edge_refusal, timer_refusal};

use http_edge::EdgeError;
use lists_and_limits::OutOfMemory;
use schedule_text::ScheduleError;
use thiserror::Error;
use timer_book::TimerError;

/// What is named by a part of a path or by a field of a head.
#[derive(Clone, Copy, Debug)]
pub enum ApiName {
    /// The actor's type.
    Type,
    /// The actor's id.
    Id,
    /// The method of a call.
    Method,
    /// The key of an entry of state.
    Key,
    /// The name of a reminder or timer.
    Name,
    /// The reentrancy chain.
    Chain,
    /// The least version of the table that the caller knows of.
    Least,
    /// The name that a peer gives to a call.
    Call,
}

/// Why a request isn't served, one variant for each row of the table of refusals. Those that `read_api` answers come
/// first, in the order in which they are tested.
#[derive(Clone, Copy, Debug, Error)]
pub enum ApiRefusal {
    /// The path leads nowhere; on the port for peers, any path but that of a call.
    #[error("no such route")]
    NoRoute,
    /// The route has no command for this method.
    #[error("method not allowed here")]
    WrongMethod,
    /// The name has another form, or is missing.
    #[error("bad {name:?}")]
    BadName { name: ApiName },
    /// The body isn't JSON of the form that the command takes.
    #[error("malformed body")]
    MalformedBody,
    /// A number that would be kept isn't an integer of 64 bits, with or without sign.
    #[error("number is not a 64-bit integer")]
    OtherNumber,
    /// The operation with this index, counted from 0, has a key or a value that is too long; or there are more than
    /// 1,000 operations, and the index is 1000.
    #[error("operation {index}")]
    TooLarge { index: u64 },
    /// A text of the schedule has no reading.
    #[error("refused {fault}")]
    BadSchedule { fault: ScheduleError },
    /// There was no memory.
    #[error("out of memory")]
    OutOfMemory,
    /// What came isn't a request's head.
    #[error("malformed head")]
    MalformedHead,
    /// The head has more than 16,384 bytes.
    #[error("head above 16384 bytes")]
    HeadTooLong,
    /// The body has a transfer coding.
    #[error("chunked bodies are not served")]
    Chunked,
    /// The body has more than 4,194,304 bytes.
    #[error("body above 4194304 bytes")]
    BodyTooLong,
    /// The actor isn't active here.
    #[error("actor is not active here")]
    NotActive,
    /// The actor has 1,024 timers, and none of this name.
    #[error("actor has 1024 timers")]
    TimersFull,
    /// The actor has no reminder of this name.
    #[error("no such reminder")]
    NoReminder,
    /// No host of the table of this version serves the type.
    #[error("no host in version {version}")]
    NoHost { version: u64 },
    /// The chain has as many open turns of the actor as its type allows.
    #[error("{turns} turns are open")]
    Depth { turns: u64 },
    /// 1,024 calls of the actor wait.
    #[error("1024 calls wait")]
    QueueFull,
    /// The part has 65,536 actors.
    #[error("65536 actors")]
    PartFull,
    /// The turn was ended before the application answered.
    #[error("turn was ended")]
    Aborted,
    /// The sidecar has stopped.
    #[error("sidecar stopped")]
    Stopped,
    /// The call was passed on seven times, and would be once more; these are the versions of all eight tables.
    #[error("moved at {versions:?}")]
    Moved { versions: [u64; 8] },
    /// A peer passed the call on by a table whose version isn't above that of the one before.
    #[error("version {version} after {last}")]
    NotRising { last: u64, version: u64 },
    /// The greatest version that the part has seen is below the one that its caller knows of.
    #[error("seen {seen}")]
    Behind { seen: u64 },
    /// The connection to the application failed.
    #[error("link failed")]
    AppFault,
    /// The connection to a peer failed.
    #[error("link failed")]
    PeerFault,
    /// The connection to the store failed.
    #[error("link failed")]
    StoreFault,
    /// The application's reply has no reading.
    #[error("unreadable reply")]
    AppReply,
    /// A peer's reply has no reading.
    #[error("unreadable reply")]
    PeerReply,
    /// The store's answer has no reading.
    #[error("unreadable reply")]
    StoreReply,
    /// The store refused the command, with this code of its frame.
    #[error("store code {code}")]
    StoreRefused { code: u8 },
    /// A call of this name was forwarded here before and runs still.
    #[error("call is running")]
    CallRunning,
    /// A call of this name was answered with this status; its body was too long to be kept.
    #[error("answered {status}")]
    AnswerGone { status: u16 },
    /// The number of the call is at most the floor of those that are remembered: it may have acted.
    #[error("floor {floor}")]
    CallOld { floor: u64 },
    /// The node of the call's name has forwarded calls in this later boot.
    #[error("boot {boot}")]
    CallBoot { boot: u64 },
    /// 4,096 parts of other sidecars are known that forwarded calls here, and the call comes from yet another one.
    #[error("4096 lanes")]
    CallLanes,
    /// 4,096 forwarded calls run.
    #[error("4096 calls run")]
    BookFull,
    /// All numbers of a counter are drawn.
    #[error("counter spent")]
    Spent,
}

impl From<OutOfMemory> for ApiRefusal {
    ghost use Rattle.actors_api.specs.declared.refusal.ApiRefusal.TheVariants.{OutOfMemory};
    ghost use Rattle.std.specs.Prelude.{◌≡◌};

    ghost from_gives = { λ _ e. e ≡ OutOfMemory };

    fn from(_: OutOfMemory) -> ApiRefusal {
        ApiRefusal::OutOfMemory
    }
}

/// What a connection's error is answered with; `None` if no response is sent: the input was cut short, or the
/// connection failed.
pub fn edge_refusal(error: EdgeError) -> Option<ApiRefusal>
    ensures { result ≡ edge_refusal error }
{
    match error {
        EdgeError::BadHead | EdgeError::TooManyFields | EdgeError::BadLength => {
            Some(ApiRefusal::MalformedHead)
        }
        EdgeError::HeadTooLong => Some(ApiRefusal::HeadTooLong),
        EdgeError::Chunked => Some(ApiRefusal::Chunked),
        EdgeError::BodyTooLong { .. } => Some(ApiRefusal::BodyTooLong),
        EdgeError::CutShort { .. } | EdgeError::ConnFault => None,
        EdgeError::OutOfMemory => Some(ApiRefusal::OutOfMemory),
    }
}

/// What a timer that isn't set is answered with.
pub fn timer_refusal(error: TimerError) -> ApiRefusal
    ensures { result ≡ timer_refusal error }
{
    match error {
        TimerError::Full => ApiRefusal::TimersFull,
        TimerError::Spent => ApiRefusal::Spent,
        TimerError::OutOfMemory => ApiRefusal::OutOfMemory,
    }
}
