// The watch over a sidecar: its lease, and whether the placement has refused the sidecar.
ghost use Rattle.std.specs.Prelude.{◌≡◌};
ghost use Rattle.sidecar_server.specs.Causes.{IsShown, IsSound};
ghost use Rattle.sidecar_server.specs.Watch.{are_same, new_watch, first_cause, heard_lease, stop_after, refused_stop, refusal_event, turn_event};

use crate::placements::{Placements, are_same_placements};
use actor_names::Member;
use actor_ports::{Clock, Dial};
use lease_core::Lease;
use placement_beats::TurnEnd;
use round_core::PlaceReply;
use std::marker::{Model, PhantomData};
use step_gate::{Machine, News};

/// Why a sidecar has to stop.
#[derive(Clone, Copy)]
pub enum StopCause {
    /// The start of its lease, and a moment at least 5,000 milliseconds later at which this was seen.
    Silent { start: u64, now: u64 },
    /// The placement's refusal: `StaleBoot`, `NotMember`, `Full` or `SpacesFull`.
    Refused { reply: PlaceReply },
}

/// Whose turns a watch is told of: a member's, with the placement at one of its addresses.
#[derive(Clone, Copy)]
pub struct Parties {
    pub member: Member,
    pub placement: Placements,
}

/// What the watch is told.
#[derive(Clone, Copy)]
pub enum WatchEvent {
    /// The placement answered a turn that was begun at this moment, which a clock showed.
    Answered { parties: Parties, sent: u64 },
    /// A clock shows this moment.
    Look { now: u64 },
    /// The placement has refused the sidecar in a turn.
    Refused { parties: Parties, reply: PlaceReply },
}

// The code by which a placement says that its journal is full.
const JOURNAL_FULL: u8 = 8;

/// The lease of a sidecar, and why the sidecar has to stop, once it has to. The first cause counts. An answered turn extends
/// the lease; turns of others than its own parties change nothing. Each moment is one that a clock of type `K` showed, and a
/// refusal ended a turn over a link that a dialler of type `N` gave: no other event is taken.
#[derive(Drop)]
pub struct Watch<N: Dial, K: Clock> {
    parties: Parties,
    lease: Lease,
    stop: Option<StopCause>,
    told_by: PhantomData<(N, K)>,
}

impl<N: Dial, K: Clock> Model for Watch<N, K> {
    ghost use Rattle.sidecar_server.specs.Causes.{IsShown, IsSound};
    ghost use Rattle.sidecar_server.specs.Watch.{WatchState};

    ghost Value = { WatchState };

    ghost view = { λ w. record { parties = w.parties; lease = w.lease; stop = w.stop } };

    ghost invariant = { λ w. IsShown K.shown w.lease × IsSound N.dialled N.Link.read_traffic K.shown w.parties w.stop };
}

// What the watch is told of a turn that was begun at this moment and refused so.
fn refusal_event(parties: Parties, reply: PlaceReply, sent: u64) -> Option<WatchEvent>
    ensures { result ≡ refusal_event parties reply sent }
{
    match reply {
        PlaceReply::NodeBusy { .. } => Some(WatchEvent::Answered { parties, sent }),
        PlaceReply::StaleBoot { .. } => Some(WatchEvent::Refused { parties, reply }),
        PlaceReply::NotMember { .. } => Some(WatchEvent::Refused { parties, reply }),
        PlaceReply::SpacesFull { .. } => Some(WatchEvent::Refused { parties, reply }),
        PlaceReply::Full { .. } => Some(WatchEvent::Refused { parties, reply }),
        _ => None,
    }
}

/// What the watch is told of a turn that was begun at this moment and ended so: nothing, if it failed.
pub(crate) fn turn_event(parties: Parties, end: TurnEnd, sent: u64) -> Option<WatchEvent>
    ensures { result ≡ turn_event parties end sent }
{
    match end {
        TurnEnd::Next => Some(WatchEvent::Answered { parties, sent }),
        TurnEnd::Refused { reply } => refusal_event(parties, reply, sent),
        TurnEnd::NodeRefused { code, number: _ } => {
            if code == JOURNAL_FULL {
                return Some(WatchEvent::Answered { parties, sent });
            }
            None
        }
        _ => None,
    }
}

// Whether the two are the same.
fn are_same(a: &Parties, b: &Parties) -> bool
    ensures { result ≡ are_same a.now b.now }
{
    a.member == b.member && are_same_placements(a.placement, b.placement)
}

// The first cause counts.
fn first_cause(stop: Option<StopCause>, cause: StopCause) -> Option<StopCause>
    ensures { result ≡ first_cause stop cause }
{
    if stop.is_none() {
        return Some(cause);
    }
    stop
}

// A turn of these parties was begun at this moment, and answered.
fn hear(own: &Parties, lease: &mut Lease, parties: Parties, sent: u64)
    ensures { lease.new ≡ heard_lease own.now lease.old parties sent }
{
    if !are_same(&parties, own) {
        return;
    }
    lease.answered(sent);
}

// Why the sidecar has to stop after a look at this moment.
fn stop_after(lease: &Lease, stop: Option<StopCause>, now: u64) -> Option<StopCause>
    ensures { result ≡ stop_after lease.now stop now }
{
    if lease.ended(now) {
        let start = lease.start();
        return first_cause(stop, StopCause::Silent { start, now });
    }
    stop
}

// Why the sidecar has to stop after a turn of these parties was refused so.
fn refused_stop(
    own: &Parties,
    stop: Option<StopCause>,
    parties: Parties,
    reply: PlaceReply,
) -> Option<StopCause>
    ensures { result ≡ refused_stop own.now stop parties reply }
{
    if !are_same(&parties, own) {
        return stop;
    }
    first_cause(stop, StopCause::Refused { reply })
}

impl<N: Dial, K: Clock> Watch<N, K> {
    /// A watch over these parties' turns, whose lease begins at this moment, which a clock has shown.
    pub fn new(parties: Parties, now: u64) -> Watch<N, K>
        requires { IsShown K.shown now }
        ensures { result ≡ new_watch parties now }
    {
        Watch {
            parties,
            lease: Lease::new(now),
            stop: None,
            told_by: PhantomData,
        }
    }

    /// Why the sidecar has to stop, if it has to.
    pub fn stop(&self) -> Option<StopCause>
        ensures is { result ≡ self.now.stop }
        ensures sound { IsSound N.dialled N.Link.read_traffic K.shown self.now.parties result }
    {
        self.stop
    }
}

impl<N: Dial, K: Clock> Machine for Watch<N, K> {
    ghost use Rattle.sidecar_server.specs.Watch.{WatchTakes, WatchMoves};

    type Event = WatchEvent;

    type Reply = Option<StopCause>;

    ghost takes = { WatchTakes N.dialled N.Link.read_traffic K.shown };

    ghost moves = { WatchMoves };

    fn step(&mut self, event: WatchEvent) -> Option<StopCause> {
        match event {
            WatchEvent::Answered { parties, sent } => {
                hear(&self.parties, &mut self.lease, parties, sent);
            }
            WatchEvent::Look { now } => {
                self.stop = stop_after(&self.lease, self.stop, now);
            }
            WatchEvent::Refused { parties, reply } => {
                self.stop = refused_stop(&self.parties, self.stop, parties, reply);
            }
        }
        self.stop
    }

    // Nobody waits at the watch.
    fn news(_reply: &Option<StopCause>) -> News {
        News::Nobody
    }
}
