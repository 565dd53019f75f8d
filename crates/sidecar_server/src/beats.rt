// The turns with the placement.
ghost use Rattle.std.specs.Prelude.{◌≡◌, IfSome};
ghost use Rattle.exchanges.specs.Replies.{place_at};
ghost use Rattle.sidecar_server.specs.Links.{IsOneOf, next_address};
ghost use Rattle.sidecar_server.specs.Passes.{Admits};
ghost use Rattle.sidecar_server.specs.Watch.{WatchTakes};
ghost use Rattle.sidecar_server.specs.Works.{Alternates, has_failed, turned_by, DoesDuty, GivesStops, LeavesTables, MayTurn, TellsWatch, left_by};

use crate::link::PlacementLink;
use crate::pass::Pass;
use crate::placements::{is_one_of, next_address};
use crate::service::SidecarService;
use crate::telling::{tell_stop, tell_turn, tell_undialled};
use crate::watch::{Parties, WatchEvent, turn_event};
use actor_ports::{Clock, Dial, Waits};
use placement_beats::{TurnEnd, leave_turn, placement_turn};
use sidecar_node::stop_turn;
use std::sync::Wait;

// Stops all parts; then the sidecar is over.
fn stop<R: Wait, A: Dial, P: Dial, N: Dial, K: Clock>(
    rt: &R,
    service: &SidecarService<'_, N, K>,
    pass: Pass<A, P, N, K>,
) -> Pass<A, P, N, K>
    requires { Admits service.now.node.now service.now.watch.now pass.seats pass.watch }
    ensures admits { Admits service.now.node.now service.now.watch.now result.seats result.watch }
    ensures stops { GivesStops service.now.node.now pass.seats result.seats }
    ensures watch { result.watch ≡ pass.watch }
    ensures same { (result.link ≡ pass.link) × (result.is_second ≡ pass.is_second) }
{
    let mut pass = pass;
    let (seats, _) = stop_turn(rt, service.node, pass.seats);
    pass.seats = seats;
    service.close(&mut pass.net);
    pass
}

/// Tells the watch what has happened, and stops the sidecar if it has to stop.
pub(crate) fn tell_watch<R: Wait, A: Dial, P: Dial, N: Dial, K: Clock>(
    rt: &R,
    service: &SidecarService<'_, N, K>,
    pass: Pass<A, P, N, K>,
    event: WatchEvent,
) -> Pass<A, P, N, K>
    requires admits { Admits service.now.node.now service.now.watch.now pass.seats pass.watch }
    requires event { WatchTakes N.dialled N.Link.read_traffic K.shown event }
    ensures admits { Admits service.now.node.now service.now.watch.now result.seats result.watch }
    ensures tells { TellsWatch service.now.node.now event pass.watch result.watch pass.seats result.seats }
    ensures same { (result.link ≡ pass.link) × (result.is_second ≡ pass.is_second) }
{
    let mut pass = pass;
    match service.watch.call_in(rt, &mut pass.watch, event) {
        Ok(None) => pass,
        Ok(Some(cause)) => {
            tell_stop(service.log, cause);
            stop(rt, service, pass)
        }
        Err(_) => stop(rt, service, pass),
    }
}

// How long a link to the placement waits for a byte: less than a lease lasts, so that a silence is seen in time.
const WAITS: Waits = Waits {
    quiet_ms: Some(2_000),
    message_ms: None,
    whole_ms: None,
};

// How long the placement has to answer a sidecar that leaves: its other links have ended then.
const LEAVE_WAITS: Waits = Waits {
    quiet_ms: None,
    message_ms: None,
    whole_ms: Some(1_000),
};

// A new link to the placement at the address whose turn it is, which waits so.
fn dial_placement<N: Dial, K: Clock>(
    service: &SidecarService<'_, N, K>,
    net: &mut N,
    waits: Waits,
    is_second: bool,
) -> Option<PlacementLink<N>>
    ensures one_of { IfSome result (IsOneOf service.now.placement) }
    ensures next { IfSome result (λ at. at ≡ next_address service.now.placement is_second) }
{
    let at = next_address(service.placement, is_second);
    match net.dial_waiting(at.ip, at.port, waits) {
        Ok(link) => Some(PlacementLink { link, at }),
        Err(_) => None,
    }
}

// The link to the placement, dialled if there is none.
fn linked<N: Dial, K: Clock>(
    service: &SidecarService<'_, N, K>,
    net: &mut N,
    link: Option<PlacementLink<N>>,
    is_second: bool,
) -> Option<PlacementLink<N>>
    ensures { IfSome result (IsOneOf service.now.placement) }
{
    if let Some(link) = link {
        if is_one_of(service.placement, link.at) {
            return Some(link);
        }
    }
    dial_placement(service, net, WAITS, is_second)
}

// The link, if the turn over it ended well.
fn kept_link<L: Drop>(end: TurnEnd, link: L) -> Option<L>
    ensures { result ≡ left_by end link }
{
    match end {
        TurnEnd::Next => Some(link),
        _ => {
            drop(link);
            None
        }
    }
}

// Whether the link failed over which a turn ended so.
fn has_failed(end: TurnEnd) -> bool
    ensures { result ≡ has_failed end }
{
    matches!(end, TurnEnd::ConnFault | TurnEnd::BadReply { .. })
}

// Whether the second address is dialled next, behind a turn that ended so: behind a link that failed the other one is.
fn turned_by(end: TurnEnd, is_second: bool) -> bool
    ensures { result ≡ turned_by end is_second }
{
    if has_failed(end) {
        return !is_second;
    }
    is_second
}

// One turn over this link, and what the watch is to be told of it. The link is kept if the turn ended well.
fn beat_over<R: Wait, A: Dial, P: Dial, N: Dial, K: Clock>(
    rt: &R,
    service: &SidecarService<'_, N, K>,
    pass: Pass<A, P, N, K>,
    link: PlacementLink<N>,
) -> (Pass<A, P, N, K>, Option<WatchEvent>)
    requires admits { Admits service.now.node.now service.now.watch.now pass.seats pass.watch }
    requires leads { IsOneOf service.now.placement link }
    ensures admits { Admits service.now.node.now service.now.watch.now result.0.seats result.0.watch }
    ensures turn { MayTurn N.dialled N.Link.read_traffic K.shown service.now.node.now (place_at link) pass.seats result.0.seats }
    ensures event { IfSome result.1 (WatchTakes N.dialled N.Link.read_traffic K.shown) }
    ensures alternates { Alternates pass.is_second result.0.is_second result.0.link }
{
    let mut pass = pass;
    let PlacementLink { link, at } = link;
    let mut link = link;
    // The placement can't have heard this turn's frame before it began.
    let sent = pass.steady.now_ms();
    let (seats, end) = placement_turn(
        rt,
        service.alloc,
        service.node,
        pass.seats,
        &mut pass.book,
        &mut link,
        &mut pass.steady,
    );
    pass.seats = seats;
    tell_turn(service.log, at, end);
    let used = PlacementLink { link, at };
    pass.link = kept_link(end, used);
    pass.is_second = turned_by(end, pass.is_second);
    let parties = Parties {
        member: service.node.host().member,
        placement: service.placement,
    };
    (pass, turn_event(parties, end, sent))
}

// One turn over this link; the watch is told of it.
fn beat_on<R: Wait, A: Dial, P: Dial, N: Dial, K: Clock>(
    rt: &R,
    service: &SidecarService<'_, N, K>,
    pass: Pass<A, P, N, K>,
    link: PlacementLink<N>,
) -> Pass<A, P, N, K>
    requires admits { Admits service.now.node.now service.now.watch.now pass.seats pass.watch }
    requires leads { IsOneOf service.now.placement link }
    ensures admits { Admits service.now.node.now service.now.watch.now result.seats result.watch }
    ensures does { DoesDuty N.dialled N.Link.read_traffic K.shown service.now.node.now service.now.placement pass.seats result.seats }
    ensures alternates { Alternates pass.is_second result.is_second result.link }
{
    let (beaten, event) = beat_over(rt, service, pass, link);
    match event {
        None => beaten,
        Some(event) => tell_watch(rt, service, beaten, event),
    }
}

/// One turn with the placement, over the link that is left or a new one. After a turn that didn't end well the next one
/// dials again, and the other address if the dial or the link failed.
pub(crate) fn beat<R: Wait, A: Dial, P: Dial, N: Dial, K: Clock>(
    rt: &R,
    service: &SidecarService<'_, N, K>,
    pass: Pass<A, P, N, K>,
) -> Pass<A, P, N, K>
    requires { Admits service.now.node.now service.now.watch.now pass.seats pass.watch }
    ensures admits { Admits service.now.node.now service.now.watch.now result.seats result.watch }
    ensures does { DoesDuty N.dialled N.Link.read_traffic K.shown service.now.node.now service.now.placement pass.seats result.seats }
    ensures alternates { Alternates pass.is_second result.is_second result.link }
{
    let mut pass = pass;
    let left = pass.link.take();
    match linked(service, &mut pass.net, left, pass.is_second) {
        None => {
            tell_undialled(service, pass.is_second);
            pass.is_second = !pass.is_second;
            pass
        }
        Some(link) => beat_on(rt, service, pass, link),
    }
}

// Leaves the placement over this link; the parts are stopped once more.
fn leave_over<R: Wait, A: Dial, P: Dial, N: Dial, K: Clock>(
    rt: &R,
    service: &SidecarService<'_, N, K>,
    pass: Pass<A, P, N, K>,
    link: PlacementLink<N>,
) -> Pass<A, P, N, K>
    requires { Admits service.now.node.now service.now.watch.now pass.seats pass.watch }
    ensures admits { Admits service.now.node.now service.now.watch.now result.seats result.watch }
    ensures leaves { LeavesTables pass.seats result.seats }
{
    let mut pass = pass;
    let PlacementLink { link, at: _ } = link;
    let mut link = link;
    let (seats, _) = leave_turn(rt, service.alloc, service.node, pass.seats, &mut link);
    pass.seats = seats;
    pass
}

/// Stops all parts and leaves the placement, over a new link to the address that is dialled next.
pub(crate) fn leave<R: Wait, A: Dial, P: Dial, N: Dial, K: Clock>(
    rt: &R,
    service: &SidecarService<'_, N, K>,
    pass: Pass<A, P, N, K>,
) -> Pass<A, P, N, K>
    requires { Admits service.now.node.now service.now.watch.now pass.seats pass.watch }
    ensures admits { Admits service.now.node.now service.now.watch.now result.seats result.watch }
    ensures does { DoesDuty N.dialled N.Link.read_traffic K.shown service.now.node.now service.now.placement pass.seats result.seats }
{
    let mut pass = pass;
    let (seats, _) = stop_turn(rt, service.node, pass.seats);
    pass.seats = seats;
    pass.link = None;
    match dial_placement(service, &mut pass.net, LEAVE_WAITS, pass.is_second) {
        None => pass,
        Some(link) => leave_over(rt, service, pass, link),
    }
}
