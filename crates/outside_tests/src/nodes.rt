// Seats of a sidecar's node that are split and joined.
use crate::members::host;
use actor_names::read_key;
use actor_ports::MemClock;
use part_core::PartReply;
use part_model::TypeList;
use sidecar_node::{SidecarNode, begin_turn, stop_turn};
use std::test::Fail;

#[test]
fn split_seats_step_at_one_node(rt: HostRuntime) -> Result<(), Fail> {
    let alloc = rt.alloc();
    let kinds = TypeList::from_vec(Vec::new(alloc));
    let (node, seats) = SidecarNode::new(alloc, host(alloc)?, kinds, 1)?;
    let (seats, others) = node.split(alloc, seats);
    let (others, stopped) = stop_turn(&rt, &node, others?);
    assert!(rt; stopped.is_ok());
    let mut seats = node.join(seats, others);
    let key = read_key(alloc, b"counter/7")?;
    let mut clock = MemClock::new(alloc, 20, &[])?;
    let last = begin_turn(
        &rt,
        alloc,
        &node,
        &mut seats,
        &key,
        None,
        Some(1),
        &mut clock,
    );
    assert!(rt; matches!(last, Ok(PartReply::Stopped)));
    Ok(())
}
