// The words of refusals.
ghost use Rattle.std.specs.Prelude.{◌≡◌};
ghost use Rattle.app_texts.specs.Words.{word_text, word_of};

/// The word of a refusal, which is the error code of its body.
#[derive(Clone, Copy)]
pub enum RefusalWord {
    NoRoute,
    WrongMethod,
    MalformedHead,
    HeadTooLong,
    Chunked,
    BodyTooLong,
    BadName,
    MalformedBody,
    FractionNumber,
    Schedule,
    TooLarge,
    InstanceMissing,
    TimersFull,
    ReminderNotFound,
    NoHost,
    StackDepth,
    QueueFull,
    PartFull,
    Aborted,
    Stopped,
    Moved,
    PeerVersion,
    PeerBehind,
    AppFault,
    PeerFault,
    StoreFault,
    AppReply,
    PeerReply,
    StoreReply,
    StoreRefused,
    CallRunning,
    AnswerGone,
    CallOld,
    CallBoot,
    CallLanes,
    BookFull,
    Spent,
    OutOfMemory,
}

impl RefusalWord {
    /// The word as it is written.
    pub fn text(self) -> &'static str
        ensures { result.now ≡ word_text self }
    {
        match self {
            RefusalWord::NoRoute => "ERR_NO_ROUTE",
            RefusalWord::WrongMethod => "ERR_METHOD",
            RefusalWord::MalformedHead => "ERR_MALFORMED_HEAD",
            RefusalWord::HeadTooLong => "ERR_HEAD_TOO_LONG",
            RefusalWord::Chunked => "ERR_CHUNKED",
            RefusalWord::BodyTooLong => "ERR_BODY_TOO_LONG",
            RefusalWord::BadName => "ERR_BAD_NAME",
            RefusalWord::MalformedBody => "ERR_MALFORMED_BODY",
            RefusalWord::FractionNumber => "ERR_FRACTION_NUMBER",
            RefusalWord::Schedule => "ERR_SCHEDULE",
            RefusalWord::TooLarge => "ERR_TOO_LARGE",
            RefusalWord::InstanceMissing => "ERR_ACTOR_INSTANCE_MISSING",
            RefusalWord::TimersFull => "ERR_TIMERS_FULL",
            RefusalWord::ReminderNotFound => "ERR_REMINDER_NOT_FOUND",
            RefusalWord::NoHost => "ERR_ACTOR_NO_HOST",
            RefusalWord::StackDepth => "ERR_ACTOR_STACK_DEPTH",
            RefusalWord::QueueFull => "ERR_ACTOR_QUEUE_FULL",
            RefusalWord::PartFull => "ERR_PART_FULL",
            RefusalWord::Aborted => "ERR_ACTOR_ABORTED",
            RefusalWord::Stopped => "ERR_SIDECAR_STOPPED",
            RefusalWord::Moved => "ERR_ACTOR_MOVED",
            RefusalWord::PeerVersion => "ERR_PEER_VERSION",
            RefusalWord::PeerBehind => "ERR_PEER_BEHIND",
            RefusalWord::AppFault => "ERR_APP_FAULT",
            RefusalWord::PeerFault => "ERR_PEER_FAULT",
            RefusalWord::StoreFault => "ERR_STORE_FAULT",
            RefusalWord::AppReply => "ERR_APP_REPLY",
            RefusalWord::PeerReply => "ERR_PEER_REPLY",
            RefusalWord::StoreReply => "ERR_STORE_REPLY",
            RefusalWord::StoreRefused => "ERR_STORE_REFUSED",
            RefusalWord::CallRunning => "ERR_CALL_RUNNING",
            RefusalWord::AnswerGone => "ERR_ANSWER_GONE",
            RefusalWord::CallOld => "ERR_CALL_OLD",
            RefusalWord::CallBoot => "ERR_CALL_BOOT",
            RefusalWord::CallLanes => "ERR_CALL_LANES",
            RefusalWord::BookFull => "ERR_BOOK_FULL",
            RefusalWord::Spent => "ERR_SPENT",
            RefusalWord::OutOfMemory => "ERR_OUT_OF_MEMORY",
        }
    }
}

// All words, in the order of their declaration.
const WORDS: [RefusalWord; 38] = [
    RefusalWord::NoRoute,
    RefusalWord::WrongMethod,
    RefusalWord::MalformedHead,
    RefusalWord::HeadTooLong,
    RefusalWord::Chunked,
    RefusalWord::BodyTooLong,
    RefusalWord::BadName,
    RefusalWord::MalformedBody,
    RefusalWord::FractionNumber,
    RefusalWord::Schedule,
    RefusalWord::TooLarge,
    RefusalWord::InstanceMissing,
    RefusalWord::TimersFull,
    RefusalWord::ReminderNotFound,
    RefusalWord::NoHost,
    RefusalWord::StackDepth,
    RefusalWord::QueueFull,
    RefusalWord::PartFull,
    RefusalWord::Aborted,
    RefusalWord::Stopped,
    RefusalWord::Moved,
    RefusalWord::PeerVersion,
    RefusalWord::PeerBehind,
    RefusalWord::AppFault,
    RefusalWord::PeerFault,
    RefusalWord::StoreFault,
    RefusalWord::AppReply,
    RefusalWord::PeerReply,
    RefusalWord::StoreReply,
    RefusalWord::StoreRefused,
    RefusalWord::CallRunning,
    RefusalWord::AnswerGone,
    RefusalWord::CallOld,
    RefusalWord::CallBoot,
    RefusalWord::CallLanes,
    RefusalWord::BookFull,
    RefusalWord::Spent,
    RefusalWord::OutOfMemory,
];

/// The word that this text is, letter by letter; `None` if it is no word.
pub fn read_word(text: &[u8]) -> Option<RefusalWord>
    ensures { result ≡ word_of text.now }
{
    for word in WORDS {
        if word.text().as_bytes() == text {
            return Some(word);
        }
    }
    None
}
