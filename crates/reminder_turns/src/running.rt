// One reminder, and all of a page.
ghost use Rattle.std.specs.Prelude.{◌≡◌, ◌||◌};
ghost use Rattle.sidecar_node.specs.Nodes.{IsSeatsOf};
ghost use Rattle.reminder_turns.specs.Runs.{RunsOne, RunsPage};

use crate::calling::take_turn;
use crate::ends::TickEnd;
use crate::listing::reported_end;
use crate::outcomes::{begun_in, fault_in, is_owed, turned_end};
use crate::reporting::report;
use actor_ports::{Clock, Dial};
use exchanges::Links;
use frame_wire::DueEntry;
use sidecar_node::Desk;
use std::sync::Wait;

/// What reminders came to that were run.
#[derive(Drop)]
pub(crate) struct Ran {
    /// How many calls were begun, at most 4,294,967,295.
    pub(crate) turns: u32,
    /// Whether the connection to the application failed at least once.
    pub(crate) faulted: bool,
    /// What ended the call, if something did.
    pub(crate) end: Option<TickEnd>,
}

/// Whether one of the two holds.
pub(crate) fn either(one: bool, other: bool) -> bool
    ensures { result ≡ (one || other) }
{
    if one { true } else { other }
}

// Runs one reminder: a turn of its actor with its callback, and a report if one is owed.
fn run_one<R: Wait, A: Dial, P: Dial, S: Dial, K: Clock>(
    desk: &mut Desk<'_, R, Links<A, P, S>, K>,
    entry: &DueEntry,
) -> Ran
    requires { IsSeatsOf desk.old.node.now desk.old.seats }
    ensures node { desk.new.node.now ≡ desk.old.node.now }
    ensures seats { IsSeatsOf desk.old.node.now desk.new.seats }
    ensures runs { RunsOne desk.old.node.now desk.old.links.app_at desk.old.links.store_at entry.now (K.shown desk.old.clock) (K.shown desk.new.clock) desk.old.seats desk.new.seats
        (A.dialled desk.old.links.app) (A.dialled desk.new.links.app) (A.dial_faults desk.old.links.app) (A.dial_faults desk.new.links.app)
        (S.dialled desk.old.links.store) (S.dialled desk.new.links.store) (S.dial_faults desk.old.links.store) (S.dial_faults desk.new.links.store)
        result.turns result.faulted result.end }
    ensures places { (desk.new.links.app_at ≡ desk.old.links.app_at) × (desk.new.links.store_at ≡ desk.old.links.store_at) }
    ensures peers { desk.new.links.peers ≡ desk.old.links.peers }
{
    let turned = take_turn(desk, entry);
    let turns = begun_in(&turned);
    let faulted = fault_in(&turned);
    let early = turned_end(&turned);
    if is_owed(&turned) {
        let reported = report(desk, &entry.key);
        let end = reported_end(early, reported);
        return Ran {
            turns,
            faulted,
            end,
        };
    }
    Ran {
        turns,
        faulted,
        end: early,
    }
}

/// Runs the reminders of a page, in order, until one ends the call.
pub(crate) fn run_page<R: Wait, A: Dial, P: Dial, S: Dial, K: Clock>(
    desk: &mut Desk<'_, R, Links<A, P, S>, K>,
    entries: &[DueEntry],
) -> Ran
    requires { IsSeatsOf desk.old.node.now desk.old.seats }
    ensures node { desk.new.node.now ≡ desk.old.node.now }
    ensures seats { IsSeatsOf desk.old.node.now desk.new.seats }
    ensures runs { RunsPage desk.old.node.now desk.old.links.app_at desk.old.links.store_at entries.now (K.shown desk.old.clock) (K.shown desk.new.clock) desk.old.seats desk.new.seats
        (A.dialled desk.old.links.app) (A.dialled desk.new.links.app) (A.dial_faults desk.old.links.app) (A.dial_faults desk.new.links.app)
        (S.dialled desk.old.links.store) (S.dialled desk.new.links.store) (S.dial_faults desk.old.links.store) (S.dial_faults desk.new.links.store)
        result.turns result.faulted result.end }
    ensures places { (desk.new.links.app_at ≡ desk.old.links.app_at) × (desk.new.links.store_at ≡ desk.old.links.store_at) }
    ensures peers { desk.new.links.peers ≡ desk.old.links.peers }
{
    let mut turns = 0u32;
    let mut faulted = false;
    for entry in entries {
        let ran = run_one(desk, entry);
        let Ran {
            turns: more,
            faulted: fault,
            end,
        } = ran;
        turns = turns.saturating_add(more);
        faulted = either(faulted, fault);
        match end {
            None => {}
            Some(end) => {
                return Ran {
                    turns,
                    faulted,
                    end: Some(end),
                };
            }
        }
    }
    Ran {
        turns,
        faulted,
        end: None,
    }
}
