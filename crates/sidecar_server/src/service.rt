// What the threads of a sidecar share.
ghost use Rattle.sidecar_server.specs.Passes.{Admits};

use crate::pass::Pass;
use crate::placements::Placements;
use crate::watch::Watch;
use actor_ports::{Clock, Dial};
use event_log::EventLog;
use exchanges::Links;
use placement_beats::PlacementBook;
use server_ports::{Ending, Service};
use sidecar_node::SidecarNode;
use std::alloc::Global;
use step_gate::Gate;

// How many works a sidecar has (`duties`): all that follow the fourth deactivate actors.
const WORKS: u32 = 12;

/// What the threads of a sidecar share: its node, the gate of the watch, the addresses of the placement, the end of the
/// server, which listens at two ports, how many connections of each it serves at once, and its log.
#[derive(Drop)]
pub(crate) struct SidecarService<'a, N: Dial, K: Clock> {
    pub(crate) alloc: Global,
    pub(crate) node: &'a SidecarNode,
    pub(crate) watch: &'a Gate<Watch<N, K>>,
    pub(crate) placement: Placements,
    pub(crate) ending: Ending,
    pub(crate) at_once: u64,
    pub(crate) log: &'a EventLog,
}

impl<N: Dial, K: Clock> SidecarService<'_, N, K> {
    /// Says that the sidecar is over, ends the connections that wait for a byte, and wakes the loops that wait for a
    /// connection.
    pub(crate) fn close(&self, net: &mut N) {
        self.ending.stop(net);
    }
}

impl<A: Dial, P: Dial, N: Dial, K: Clock> Service<Pass<A, P, N, K>> for SidecarService<'_, N, K> {
    ghost admits = { λ v p. Admits v.node.now v.watch.now p.seats p.watch };

    fn split(&self, pass: Pass<A, P, N, K>) -> (Pass<A, P, N, K>, Option<Pass<A, P, N, K>>) {
        let (Ok(app), Ok(peers), Ok(store)) = (
            pass.links.app.another(),
            pass.links.peers.another(),
            pass.links.store.another(),
        ) else {
            return (pass, None);
        };
        let (Ok(net), Ok(clock), Ok(steady)) = (
            pass.net.another(),
            pass.clock.another(),
            pass.steady.another(),
        ) else {
            return (pass, None);
        };
        let links = Links {
            app,
            peers,
            store,
            app_at: pass.links.app_at,
            store_at: pass.links.store_at,
        };
        let book = PlacementBook {
            acked: None,
            heard: pass.book.heard,
        };
        let mut pass = pass;
        let (kept, given) = self.node.split(self.alloc, pass.seats);
        pass.seats = kept;
        let Ok(seats) = given else {
            return (pass, None);
        };
        let watch = self.watch.split_in(&mut pass.watch);
        let other = Pass {
            seats,
            watch,
            links,
            net,
            clock,
            steady,
            book,
            link: None,
            is_second: pass.is_second,
        };
        (pass, Some(other))
    }

    fn works(&self) -> u32 {
        WORKS
    }

    fn most_at_once(&self) -> u64 {
        self.at_once
    }

    fn is_over(&self) -> bool {
        self.ending.is_over()
    }

    fn end(&self) {
        self.ending.end();
    }
}
