// The state of actors.
ghost use Rattle.std.specs.Prelude.{◌≡◌, ◌<◌, [], List, false, Some, None, if◌then◌else◌, IfOk, IfErr, IfSome, OnErr, option_copied};
ghost use Rattle.lists_and_limits.specs.Orders.{Ascends};
ghost use Rattle.lists_and_limits.specs.Walks.{following};
ghost use Rattle.state_rows.specs.declared.entry.StateEntry.{StateEntry};
ghost use Rattle.state_rows.specs.Checks.{ops_fault, or_memory};
ghost use Rattle.state_rows.specs.Entries.{row_cmp, value_at, after_ops, restored};
ghost use Rattle.state_rows.specs.Prepared.{after_tx};

use crate::check::ops_fault;
use crate::entry::StateEntry;
use crate::error::StateError;
use crate::op::StateOp;
use crate::prepared::{PreparedTx, make, prepared};
use crate::standing::RowPlace;
use actor_names::{ActorKey, OutOfMemory};
use search_tree::{Tree, leaf};
use std::alloc::Global;
use std::marker::Model;

/// The values of actors, each under a key of its actor; contracts see the entries in order of actor, then key.
#[derive(Drop)]
pub struct StateRows {
    tree: Tree<StateEntry>,
    alloc: Global,
}

impl Model for StateRows {
    ghost use Rattle.std.specs.Prelude.{List};
    ghost use Rattle.lists_and_limits.specs.Orders.{Ascends};
    ghost use Rattle.state_rows.specs.declared.entry.StateEntry.{StateEntry};
    ghost use Rattle.state_rows.specs.Entries.{row_cmp};

    ghost Value = { List StateEntry };

    ghost view = { λ a. a.tree };

    ghost invariant = { λ a. Ascends row_cmp a.tree };
}

impl StateRows {
    /// An empty collection of entries. It takes no memory.
    pub fn new(alloc: Global) -> StateRows
        ensures { result ≡ [] }
    {
        StateRows {
            tree: Tree::new(),
            alloc,
        }
    }

    // The entries are in order, with each actor and key once.
    pub(crate) fn in_order(&self)
        ensures { Ascends row_cmp self.now }
    {
        let _tree = &self.tree;
    }

    /// Why a transaction of these operations is refused, apart from running out of memory: `TooManyOps` for more than
    /// 1,000 operations; then, for the first operation at fault, `KeyTooLong` for a key of no bytes or more than 256,
    /// or `ValueTooLong` for a value of more than 4,194,304 bytes. It takes no memory.
    pub fn check(ops: &[StateOp]) -> Result<(), StateError>
        ensures ok { IfOk result (λ _. ops_fault ops.now ≡ None) }
        ensures refused { IfErr result (λ e. ops_fault ops.now ≡ Some e) }
    {
        match ops_fault(ops) {
            None => Ok(()),
            Some(fault) => Err(fault),
        }
    }

    /// Takes all the memory that a transaction at `now`, in milliseconds since 1970, needs, and leaves the entries as
    /// they are. It is refused as `check` says; if `check` accepts the operations, the only error is `OutOfMemory`.
    pub fn prepare(
        &mut self,
        actor: &ActorKey,
        ops: Vec<StateOp>,
        now: u64,
    ) -> Result<PreparedTx, StateError>
        requires { now < 253370764800000 }
        ensures leads { IfOk result (λ tx. (rows : List StateEntry) → after_tx tx rows ≡ after_ops actor.now now ops.items rows) }
        ensures refused { IfSome (ops_fault ops.items) (λ e. result ≡ Err e) }
        ensures cause { IfErr result (λ e. e ≡ or_memory (ops_fault ops.items)) }
        ensures same { self.new ≡ self.old }
    {
        if let Some(fault) = ops_fault(ops.as_slice()) {
            return Err(fault);
        }
        let tx = prepared(self.alloc, actor, ops, now)?;
        Ok(tx)
    }

    /// Makes all changes of a prepared transaction, in their order. It takes no memory and can't fail.
    pub fn apply(&mut self, tx: PreparedTx)
        ensures { self.new ≡ after_tx tx self.old }
    {
        make(&mut self.tree, tx);
    }

    /// The value of the actor's key at `now`, in milliseconds since 1970. `None` exactly if there is no entry, or `now`
    /// is at or past the moment from which on it is absent. It takes no memory.
    pub fn get(&self, actor: &ActorKey, key: &str, now: u64) -> Option<&[u8]>
        ensures { option_copied result ≡ value_at actor.now key.now now self.now }
    {
        let entry = self.tree.get(&RowPlace { actor, key })?;
        if let Some(absent) = entry.absent {
            if absent <= now {
                return None;
            }
        }
        Some(entry.value.as_slice())
    }

    /// The first entry behind this one in the order, or the first one of all: the next step of a walk over the entries,
    /// also those whose time is over. It takes no memory.
    pub fn following(&self, after: Option<&StateEntry>) -> Option<&StateEntry>
        ensures { option_copied result ≡ following row_cmp (option_copied after.entry) self.now }
    {
        self.tree.following(after)
    }

    /// Takes in an entry that was kept, as it is. Answers false if its actor and key have one already; then, and after
    /// `OutOfMemory`, nothing has changed.
    pub fn restore(&mut self, entry: StateEntry) -> Result<bool, OutOfMemory>
        ensures done { IfOk result (λ done. restored entry self.old ≡ (if done then Some self.new else None)) }
        ensures refused { IfOk result (λ done. done ≡ false → self.new ≡ self.old) }
        ensures err { OnErr result (self.new ≡ self.old) }
    {
        let place = RowPlace {
            actor: &entry.actor,
            key: entry.key.as_str(),
        };
        if self.tree.get(&place).is_some() {
            return Ok(false);
        }
        let node = leaf(self.alloc, entry)?;
        self.tree.put(node);
        Ok(true)
    }
}
