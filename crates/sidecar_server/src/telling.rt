// What a sidecar says in its log.
use crate::placements::next_address;
use crate::service::SidecarService;
use crate::watch::StopCause;
use actor_names::Address;
use actor_ports::{Clock, Dial};
use clock_turns::TickEnd as ClockEnd;
use event_log::{Dismissal, EventLog, Notice, Peer};
use frame_wire::StoreAnswer;
use placement_beats::TurnEnd;
use reminder_turns::TickEnd as RemindersEnd;
use round_core::PlaceReply;

// What is said of a placement's refusal.
fn dismissal_of(reply: PlaceReply) -> Option<Dismissal> {
    match reply {
        PlaceReply::StaleBoot { greatest } => Some(Dismissal::StaleBoot { greatest }),
        PlaceReply::NotMember { greatest } => Some(Dismissal::NotMember { greatest }),
        PlaceReply::SpacesFull { spaces } => Some(Dismissal::SpacesFull { spaces }),
        PlaceReply::Full { members, nodes: _ } => Some(Dismissal::Full { members }),
        _ => None,
    }
}

/// Says why a sidecar stops.
pub(crate) fn tell_stop(log: &EventLog, cause: StopCause) {
    match cause {
        StopCause::Silent { start, now } => log.say_stop(Notice::LeaseEnded {
            silent_ms: now.saturating_sub(start),
        }),
        StopCause::Refused { reply } => {
            if let Some(why) = dismissal_of(reply) {
                log.say_stop(Notice::Dismissed { why });
            }
        }
    }
}

/// Says where a sidecar listens: for callers, and for other sidecars.
pub(crate) fn tell_listening(log: &EventLog, callers: Address, peers: Address) {
    log.say(Notice::Listening { at: callers });
    log.say(Notice::Listening { at: peers });
}

/// Says that the placement isn't reached at the address whose turn it was.
pub(crate) fn tell_undialled<N: Dial, K: Clock>(
    service: &SidecarService<'_, N, K>,
    is_second: bool,
) {
    let at = next_address(service.placement, is_second);
    service.log.away(Peer::Placement, at);
}

/// Says whether the placement is away, by how a turn with it ended.
pub(crate) fn tell_turn(log: &EventLog, at: Address, end: TurnEnd) {
    match end {
        TurnEnd::Next | TurnEnd::Refused { .. } => log.back(Peer::Placement, at),
        TurnEnd::ConnFault | TurnEnd::BadReply { .. } => log.away(Peer::Placement, at),
        _ => {}
    }
}

/// Says whether the application is away, by how a turn of the timers ended.
pub(crate) fn tell_timers(log: &EventLog, app_at: Address, end: &ClockEnd) {
    match end {
        ClockEnd::AppFault => log.away(Peer::Application, app_at),
        ClockEnd::Done { turns } => {
            if *turns > 0 {
                log.back(Peer::Application, app_at);
            }
        }
        _ => {}
    }
}

// Says that the store refused the question for reminders.
fn tell_refusal(log: &EventLog, store_at: Address, answer: &StoreAnswer) {
    if let StoreAnswer::Refused { refusal } = answer {
        log.say_lasting(Notice::StoreRefused {
            at: store_at,
            code: refusal.code(),
        });
    }
}

/// Says whether the store is away, and whether the application is, by how a turn of the reminders ended.
pub(crate) fn tell_reminders(
    log: &EventLog,
    app_at: Address,
    store_at: Address,
    end: &RemindersEnd,
) {
    match end {
        RemindersEnd::StoreFault | RemindersEnd::StoreReply => log.away(Peer::Store, store_at),
        RemindersEnd::StoreRefused { answer } => tell_refusal(log, store_at, answer),
        RemindersEnd::AppFault => {
            log.back(Peer::Store, store_at);
            log.away(Peer::Application, app_at);
        }
        RemindersEnd::Done { turns } => {
            log.back(Peer::Store, store_at);
            if *turns > 0 {
                log.back(Peer::Application, app_at);
            }
        }
        _ => {}
    }
}
