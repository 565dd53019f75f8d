// The end of all parts.
ghost use Rattle.std.specs.Prelude.{◌≡◌, List, None, Some, length, MatchResult};
ghost use Rattle.sidecar_node.specs.Turns.{Said, first_spent, first_or};
ghost use Rattle.sidecar_node.specs.Nodes.{part_gates, IsSeatsOf, StopsAll};

use crate::node::{Seats, SidecarNode};
use part_core::PartReply;
use part_model::PartEvent;
use std::sync::Wait;
use step_gate::Spent;

// The first refusal so far, if one more answer comes.
fn first_of(spent: Option<Spent>, said: Result<PartReply, Spent>) -> Option<Spent>
    ensures { result ≡ first_or spent said }
{
    match spent {
        Some(spent) => Some(spent),
        None => match said {
            Ok(_) => None,
            Err(refused) => Some(refused),
        },
    }
}

/// Stops all parts for good: one StopPart on each part in order. `Spent` comes exactly if some part's gate took no
/// further entry; the other parts are stopped all the same. Takes no memory.
pub fn stop_turn<R: Wait>(
    rt: &R,
    node: &SidecarNode,
    mut seats: Seats,
) -> (Seats, Result<(), Spent>)
    requires { IsSeatsOf node.now seats }
    ensures seats { IsSeatsOf node.now result.0 }
    ensures stops { (saids : List Said) × StopsAll (length (part_gates node.now)) saids seats result.0 × MatchResult result.1 (λ _. first_spent saids ≡ None) (λ e. first_spent saids ≡ Some e) }
{
    let mut spent = None;
    for part in 0..node.parts.len() {
        let said = node.call_part(rt, &mut seats, part, PartEvent::StopPart);
        spent = first_of(spent, said);
    }
    match spent {
        None => (seats, Ok(())),
        Some(spent) => (seats, Err(spent)),
    }
}
