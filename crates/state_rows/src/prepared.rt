// A transaction that has all the memory it needs.
ghost use Rattle.std.specs.Prelude.{◌≡◌, ◌<◌, List, IfOk};
ghost use Rattle.lists_and_limits.specs.Orders.{Ascends};
ghost use Rattle.state_rows.specs.declared.entry.StateEntry.{StateEntry};
ghost use Rattle.state_rows.specs.Entries.{row_cmp, absent_from, after_op, after_ops};
ghost use Rattle.state_rows.specs.Prepared.{after_step, after_tx};

use crate::entry::StateEntry;
use crate::op::StateOp;
use crate::standing::RowPlace;
use crate::text::StateKey;
use actor_names::{ActorKey, OutOfMemory};
use search_tree::{Node, Tree, leaf};
use std::alloc::Global;

// One change, which has all the memory it needs.
#[derive(Drop)]
pub(crate) enum Step {
    // Puts the entry in this node in its place.
    Put(Box<Node<StateEntry>>),
    // Removes the actor's entry of this key.
    Remove(StateKey),
}

/// A transaction that was checked and has its memory. `after_tx` gives the entries after it.
#[derive(Drop)]
pub struct PreparedTx {
    actor: ActorKey,
    steps: Vec<Step>,
}

// The moment from which on an entry that is set at `now` is absent, in milliseconds.
fn absent_from(now: u64, ttl: Option<u32>) -> Option<u64>
    requires { now < 253370764800000 }
    ensures { result ≡ absent_from now ttl }
{
    match ttl {
        None => None,
        Some(seconds) => Some(now + u64::from(seconds) * 1000),
    }
}

// The change that an operation makes.
fn step_of(alloc: Global, actor: &ActorKey, op: StateOp, now: u64) -> Result<Step, OutOfMemory>
    requires { now < 253370764800000 }
    ensures { IfOk result (λ step. (rows : List StateEntry) → after_step actor.now step rows ≡ after_op actor.now now op rows) }
{
    match op {
        StateOp::Upsert { key, value, ttl } => {
            let actor = actor.copy(alloc)?;
            let node = leaf(
                alloc,
                StateEntry {
                    actor,
                    key,
                    value,
                    absent: absent_from(now, ttl),
                },
            )?;
            Ok(Step::Put(node))
        }
        StateOp::Delete { key } => Ok(Step::Remove(key)),
    }
}

/// The transaction of these operations; it holds for any entries.
pub(crate) fn prepared(
    alloc: Global,
    actor: &ActorKey,
    ops: Vec<StateOp>,
    now: u64,
) -> Result<PreparedTx, OutOfMemory>
    requires { now < 253370764800000 }
    ensures { IfOk result (λ tx. (rows : List StateEntry) → after_tx tx rows ≡ after_ops actor.now now ops.items rows) }
{
    let mut steps = Vec::new(alloc);
    for op in ops {
        let step = step_of(alloc, actor, op, now)?;
        steps.push(step)?;
    }
    let actor = actor.copy(alloc)?;
    Ok(PreparedTx { actor, steps })
}

// Makes one change. It takes no memory.
fn make_step(tree: &mut Tree<StateEntry>, actor: &ActorKey, step: Step)
    requires { Ascends row_cmp tree.old }
    ensures rows { tree.new ≡ after_step actor.now step tree.old }
    ensures order { Ascends row_cmp tree.new }
{
    match step {
        Step::Put(node) => tree.put(node),
        Step::Remove(key) => {
            let _there = tree.remove(&RowPlace {
                actor,
                key: key.as_str(),
            });
        }
    }
}

/// Makes the changes one after another. It takes no memory.
pub(crate) fn make(tree: &mut Tree<StateEntry>, tx: PreparedTx)
    requires { Ascends row_cmp tree.old }
    ensures rows { tree.new ≡ after_tx tx tree.old }
    ensures order { Ascends row_cmp tree.new }
{
    let PreparedTx { actor, steps } = tx;
    for step in steps {
        make_step(tree, &actor, step);
    }
}
