// What the placement's threads share, and its turns.
ghost use Rattle.step_gate.specs.Gates.{IsSeatOf};
ghost use Rattle.placement_node.specs.Node.{NodeAllows};

use crate::pass::Pass;
use crate::sight::Sight;
use actor_ports::{Clock, Dial};
use disk_model::Disk;
use event_log::{EventLog, Notice};
use frame_session::AnswersFrames;
use placement_node::{NodeEvent, NodeReply, PlacementNode};
use placement_sessions::PlacementFrames;
use round_core::PlaceEvent;
use server_ports::{Duty, Ending, Service, pause_for};
use std::sync::Wait;
use step_gate::Gate;

// How long the server waits between two Ticks, in milliseconds.
const PAUSE_MS: u64 = 1_000;

/// What the placement's threads share: the gate of its node, the end of the server, which listens for frames and perhaps
/// for HTTP, how many connections of a port it serves at once, and its log.
#[derive(Drop)]
pub(crate) struct PlacementService<'a, D: Disk> {
    pub(crate) gate: &'a Gate<PlacementNode<D>>,
    pub(crate) ending: Ending,
    pub(crate) at_once: u64,
    pub(crate) log: &'a EventLog,
}

impl<D: Disk> PlacementService<'_, D> {
    /// Ends the server, whose node has lost its disk.
    pub(crate) fn lose_disk<N: Dial>(&self, net: &mut N) {
        self.log.say_stop(Notice::DiskFailed);
        self.ending.stop(net);
    }
}

impl<D: Disk + Drop + Send, K: Clock, N: Dial> Service<Pass<D, K, N>> for PlacementService<'_, D> {
    ghost admits = { λ v p. IsSeatOf NodeAllows v.gate.now p.seat };

    fn split(&self, pass: Pass<D, K, N>) -> (Pass<D, K, N>, Option<Pass<D, K, N>>) {
        let Ok(clock) = pass.clock.another() else {
            return (pass, None);
        };
        let Ok(net) = pass.net.another() else {
            return (pass, None);
        };
        let mut pass = pass;
        let seat = self.gate.split_in(&mut pass.seat);
        let own = Pass {
            seat,
            clock,
            net,
            sight: Sight::none(),
        };
        (pass, Some(own))
    }

    fn works(&self) -> u32 {
        1
    }

    fn most_at_once(&self) -> u64 {
        self.at_once
    }

    fn is_over(&self) -> bool {
        self.ending.is_over()
    }

    fn end(&self) {
        self.ending.end();
    }
}

// How many members a Tick has dropped by this reply; `None` if the node has lost its disk.
fn dropped_by<D: Disk + Drop + Send>(reply: &NodeReply) -> Option<u32> {
    if <PlacementFrames as AnswersFrames<Gate<PlacementNode<D>>>>::breaks(reply) {
        return None;
    }
    match reply {
        NodeReply::Ticked { dropped } => Some(*dropped),
        _ => Some(0),
    }
}

// One Look. What it shows that the last one didn't is said. Without memory for it the next one shows it.
fn look<R: Wait, D: Disk + Drop + Send, K: Clock, N: Dial>(
    rt: &R,
    service: &PlacementService<'_, D>,
    pass: Pass<D, K, N>,
) -> Pass<D, K, N>
    requires { IsSeatOf NodeAllows service.now.gate.now pass.seat }
    ensures { IsSeatOf NodeAllows service.now.gate.now result.seat }
{
    let mut pass = pass;
    let look = NodeEvent {
        event: PlaceEvent::Look,
        now: pass.clock.now_ms(),
    };
    if let Ok(NodeReply::Seen { rooms }) = service.gate.call_in(rt, &mut pass.seat, look) {
        pass.sight.show(service.log, rooms);
    }
    pass
}

// One Tick, and a Look behind it. The server is over if the node has lost its disk.
fn tick<R: Wait, D: Disk + Drop + Send, K: Clock, N: Dial>(
    rt: &R,
    service: &PlacementService<'_, D>,
    pass: Pass<D, K, N>,
) -> Pass<D, K, N>
    requires { IsSeatOf NodeAllows service.now.gate.now pass.seat }
    ensures { IsSeatOf NodeAllows service.now.gate.now result.seat }
{
    let mut pass = pass;
    let tick = NodeEvent {
        event: PlaceEvent::Tick,
        now: pass.clock.now_ms(),
    };
    let dropped = match service.gate.call_in(rt, &mut pass.seat, tick) {
        Ok(reply) => dropped_by::<D>(&reply),
        Err(_) => None,
    };
    let Some(dropped) = dropped else {
        service.lose_disk(&mut pass.net);
        return pass;
    };
    pass.sight.drop_members(dropped);
    look(rt, service, pass)
}

/// What a thread does beside the connections: the Ticks, with their Looks, are the one work.
pub(crate) fn do_duty<R: Wait, D: Disk + Drop + Send, K: Clock, N: Dial>(
    rt: &R,
    service: &PlacementService<'_, D>,
    duty: Duty,
    pass: Pass<D, K, N>,
) -> Pass<D, K, N>
    requires { IsSeatOf NodeAllows service.now.gate.now pass.seat }
    ensures { IsSeatOf NodeAllows service.now.gate.now result.seat }
{
    let mut pass = pass;
    pause_for(&mut pass.clock, duty, PAUSE_MS);
    match duty {
        Duty::Turn(_) => return tick(rt, service, pass),
        Duty::Wake => service.ending.wake(&mut pass.net),
        _ => {}
    }
    pass
}
