// What a request is answered with.
use crate::refusal::ApiRefusal;
use http_edge::HttpResponse;
use place_table::HostInfo;
use reminder_rows::{ReminderPayload, ReminderText};
use state_rows::StateValue;

/// What a request is answered with: one variant for the success of each command, with or without a value, and one
/// for each way in which it isn't served here.
#[derive(Drop)]
pub enum ApiReply {
    /// The application's reply to a call. Its status, its first Content-Type and its body are passed on.
    Invoked {
        reply: HttpResponse,
    },
    /// The transaction was made.
    TransactionMade,
    /// The value of the entry.
    StateIs {
        value: StateValue,
    },
    /// There is no such entry.
    NoState,
    /// The reminder is registered.
    ReminderPut,
    /// The texts of the reminder as they were given, empty where there was none, and what its callback is given.
    ReminderIs {
        due: ReminderText,
        period: ReminderText,
        ttl: ReminderText,
        payload: Option<ReminderPayload>,
    },
    /// There is no such reminder any more; there may have been none before.
    ReminderDeleted,
    /// The timer is registered.
    TimerSet,
    /// There is no such timer any more; there may have been none before.
    TimerDeleted,
    /// To a peer: by the table of this version, which is at most 2^62, the actor belongs to this host.
    Elsewhere {
        version: u64,
        owner: HostInfo,
    },
    /// A response that is made already, and goes out as it is.
    Made {
        response: HttpResponse,
    },
    /// There was no memory for a response, and none goes out. Where a book of forwarded calls notes one all the same, it
    /// is the status 503 alone.
    Unanswered,
    /// The request is refused.
    Refused {
        refusal: ApiRefusal,
    },
}
