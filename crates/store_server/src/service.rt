// What the store's threads share, and its turns.
ghost use Rattle.group_gate.specs.Gates.{IsSeatOf};
ghost use Rattle.fence_rows.specs.Together.{AllowsAll};

use crate::compacting::compact_turn;
use crate::pass::Pass;
use actor_ports::{Clock, Dial};
use disk_model::Disk;
use event_log::{EventLog, Notice};
use fence_rows::Fenced;
use group_gate::GroupGate;
use server_ports::{Duty, Ending, Service, pause_for};
use std::alloc::Global;
use std::sync::Wait;

// How long the server waits between two turns, in milliseconds.
const PAUSE_MS: u64 = 1_000;

/// What the store's threads share: where memory is taken, the gate of the store, the end of the server, how many connections
/// it serves at once, and its log.
#[derive(Drop)]
pub(crate) struct StoreService<'a, D: Disk> {
    pub(crate) alloc: Global,
    pub(crate) gate: &'a GroupGate<Fenced<D>>,
    pub(crate) ending: Ending,
    pub(crate) at_once: u64,
    pub(crate) log: &'a EventLog,
}

impl<D: Disk> StoreService<'_, D> {
    /// Ends the server, whose store has lost its disk.
    pub(crate) fn lose_disk<N: Dial>(&self, net: &mut N) {
        self.log.say_stop(Notice::DiskFailed);
        self.ending.stop(net);
    }
}

impl<D: Disk + Drop + Send, K: Clock, N: Dial> Service<Pass<D, K, N>> for StoreService<'_, D> {
    ghost admits = { λ v p. IsSeatOf AllowsAll v.gate.now p.seat };

    fn split(&self, pass: Pass<D, K, N>) -> (Pass<D, K, N>, Option<Pass<D, K, N>>) {
        let Ok(clock) = pass.clock.another() else {
            return (pass, None);
        };
        let Ok(net) = pass.net.another() else {
            return (pass, None);
        };
        let mut pass = pass;
        let least = pass.least;
        let seat = self.gate.split_in(&mut pass.seat);
        let own = Pass {
            seat,
            clock,
            net,
            least,
        };
        (pass, Some(own))
    }

    fn works(&self) -> u32 {
        1
    }

    fn most_at_once(&self) -> u64 {
        self.at_once
    }

    fn is_over(&self) -> bool {
        self.ending.is_over()
    }

    fn end(&self) {
        self.ending.end();
    }
}

// One compaction, if the file is long enough. The server is over if the store has lost its disk.
fn compact<R: Wait, D: Disk + Drop + Send, K: Clock, N: Dial>(
    rt: &R,
    service: &StoreService<'_, D>,
    pass: Pass<D, K, N>,
) -> Pass<D, K, N>
    requires { IsSeatOf AllowsAll service.now.gate.now pass.seat }
    ensures { IsSeatOf AllowsAll service.now.gate.now result.seat }
{
    let mut pass = pass;
    let now = pass.clock.now_ms();
    match compact_turn(
        rt,
        service.gate,
        &mut pass.seat,
        pass.least,
        now,
        service.log,
    ) {
        Some(least) => pass.least = least,
        None => service.lose_disk(&mut pass.net),
    }
    pass
}

/// What a thread does beside the connections: the compactions are the one work.
pub(crate) fn do_duty<R: Wait, D: Disk + Drop + Send, K: Clock, N: Dial>(
    rt: &R,
    service: &StoreService<'_, D>,
    duty: Duty,
    pass: Pass<D, K, N>,
) -> Pass<D, K, N>
    requires { IsSeatOf AllowsAll service.now.gate.now pass.seat }
    ensures { IsSeatOf AllowsAll service.now.gate.now result.seat }
{
    let mut pass = pass;
    pause_for(&mut pass.clock, duty, PAUSE_MS);
    match duty {
        Duty::Turn(_) => return compact(rt, service, pass),
        Duty::Wake => service.ending.wake(&mut pass.net),
        _ => {}
    }
    pass
}
