// What the store contains.
ghost use Rattle.std.specs.Prelude.{◌≡◌, ◌<◌, ◌≤◌, None, Ok, IfOk, OnErr};
ghost use Rattle.stamp_lanes.specs.declared.answer.StampLook.TheVariants.{Fresh};
ghost use Rattle.stamp_lanes.specs.Stamps.{look, after_accept};
ghost use Rattle.store_tables.specs.Tables.{Tables, no_tables, Accepted, TakesMemory, told_in, kept_as, stamp_answer, store_outcome};
ghost use Rattle.store_tables.specs.Prepared.{prepared_outcome, HasRoom};

use crate::answers::{
    boot_answer, fired_told, kept_as, look_answer, ops_answer, reminder_answer, value_answer,
};
use crate::dues::due_list;
use crate::moments::moment_of;
use crate::prepared::{PreparedCommand, Step};
use actor_names::OutOfMemory;
use frame_wire::{Stamp, StoreAnswer, StoreCommand};
use reminder_rows::{ReminderRows, reminder_law};
use stamp_lanes::{LaneAnswer, StampLanes};
use state_rows::StateRows;
use std::alloc::Global;
use std::marker::Model;

mod snapshot;

/// What the store contains: the nodes with their boots and lanes, the state and the reminders of actors. Contracts see
/// these tables, and for how many stamps and reminders there is memory already.
#[derive(Drop)]
pub struct StoreTables {
    lanes: StampLanes,
    state: StateRows,
    reminders: ReminderRows,
    alloc: Global,
}

impl Model for StoreTables {
    ghost use Rattle.reminder_rows.specs.Reminders.{AreTimely};
    ghost use Rattle.store_tables.specs.Tables.{TablesState};

    ghost Value = { TablesState };

    ghost view = { λ a. record { stamp_room = a.lanes.spare; reminder_room = a.reminders.spare; tables = record { nodes = a.lanes.nodes; rows = a.state; reminders = a.reminders.rows } } };

    ghost invariant = { λ a. AreTimely a.reminders.rows };
}

// A stamp that is fresh joins its lane with the answer, which is given.
fn accept(lanes: &mut StampLanes, stamp: &Stamp, answer: LaneAnswer) -> StoreAnswer
    requires fresh { look stamp.now.member stamp.now.part stamp.now.number lanes.old.nodes ≡ Ok Fresh }
    requires room { 1 ≤ lanes.old.spare }
    ensures answer { result ≡ kept_as answer }
    ensures nodes { lanes.new.nodes ≡ after_accept stamp.now.member stamp.now.part (record { number = stamp.now.number; answer = answer }) lanes.old.nodes }
{
    let told = kept_as(&answer);
    lanes.accept(&stamp.member, stamp.part, stamp.number, answer);
    told
}

impl StoreTables {
    /// Nothing yet. It takes no memory.
    pub fn new(alloc: Global) -> StoreTables
        ensures { result.tables ≡ no_tables }
    {
        StoreTables {
            lanes: StampLanes::new(alloc),
            state: StateRows::new(alloc),
            reminders: ReminderRows::new(alloc),
            alloc,
        }
    }

    // What a stamp that isn't fresh is told.
    fn stamp_answer(&self, stamp: &Stamp) -> Option<StoreAnswer>
        ensures { result ≡ stamp_answer stamp.now self.now.tables }
    {
        look_answer(self.lanes.look(&stamp.member, stamp.part, stamp.number))
    }

    /// What a command is answered at `now`, in milliseconds since 1970, if it changes nothing: what it asks for, the
    /// answer that was kept of its stamp, or a refusal. `None` exactly if it is to be accepted. Only what is asked for
    /// and a boot that is to be drawn take memory.
    #[tactic(auto, unfolding(crate::specs::Tables::store_outcome))]
    pub fn told(&self, command: &StoreCommand, now: u64) -> Result<Option<StoreAnswer>, OutOfMemory>
        requires { now < 253370764800000 }
        ensures answer { IfOk result (λ answer. answer ≡ told_in (store_outcome self.now.tables command.now now)) }
        ensures memory { OnErr result (TakesMemory (store_outcome self.now.tables command.now now)) }
    {
        match command {
            StoreCommand::Boot { space, node } => boot_answer(&self.lanes, space, node),
            StoreCommand::Tx { stamp, ops, .. } => match self.stamp_answer(stamp) {
                Some(answer) => Ok(Some(answer)),
                None => Ok(ops_answer(ops.as_slice())),
            },
            StoreCommand::Get { actor, key } => {
                let value = self.state.get(actor, key.as_str(), now);
                Ok(Some(value_answer(self.alloc, value)?))
            }
            StoreCommand::PutReminder { stamp, .. } | StoreCommand::DeleteReminder { stamp, .. } =>
                { Ok(self.stamp_answer(stamp)) }
            StoreCommand::GetReminder { actor, name } => {
                let reminder = self.reminders.get(actor, name);
                Ok(Some(reminder_answer(self.alloc, reminder)?))
            }
            StoreCommand::Due { after, limit } => {
                let now = moment_of(now);
                let entries = due_list(self.alloc, &self.reminders, now, after.as_ref(), *limit)?;
                Ok(Some(StoreAnswer::DueList { entries }))
            }
            StoreCommand::Fired {
                stamp,
                actor,
                name,
                moment,
            } => match self.stamp_answer(stamp) {
                Some(answer) => Ok(Some(answer)),
                None => Ok(fired_told(&self.reminders, actor, name, *moment)),
            },
        }
    }

    /// Takes all memory that a command needs at `now`, in milliseconds since 1970, and leaves the tables as they are.
    /// The command must be one that `told` gives no answer to.
    #[tactic(auto, unfolding(crate::specs::Tables::store_outcome, crate::specs::Prepared::prepared_outcome, crate::specs::Prepared::HasRoom))]
    pub fn prepare(
        &mut self,
        command: StoreCommand,
        now: u64,
    ) -> Result<PreparedCommand, OutOfMemory>
        requires now { now < 253370764800000 }
        requires accepted { told_in (store_outcome self.old.tables command now) ≡ None }
        ensures leads { IfOk result (λ p. (t : Tables) → prepared_outcome p t ≡ store_outcome t command now) }
        ensures room { IfOk result (λ p. HasRoom p self.new) }
        ensures tables { self.new.tables ≡ self.old.tables }
    {
        let step = match command {
            StoreCommand::Boot { space, node } => match self.lanes.prepare_boot(&space, &node) {
                Ok(boot) => Step::Boot { boot },
                Err(_) => return Err(OutOfMemory),
            },
            StoreCommand::Tx { stamp, actor, ops } => {
                self.lanes.reserve()?;
                match self.state.prepare(&actor, ops.into_vec(), now) {
                    Ok(tx) => Step::Tx { stamp, tx },
                    Err(_) => return Err(OutOfMemory),
                }
            }
            StoreCommand::PutReminder {
                stamp,
                actor,
                name,
                reminder,
            } => {
                self.lanes.reserve()?;
                self.reminders.reserve()?;
                Step::PutReminder {
                    stamp,
                    actor,
                    name,
                    reminder,
                }
            }
            StoreCommand::DeleteReminder { stamp, actor, name } => {
                self.lanes.reserve()?;
                Step::DeleteReminder { stamp, actor, name }
            }
            StoreCommand::Fired {
                stamp,
                actor,
                name,
                moment,
            } => {
                self.lanes.reserve()?;
                Step::Fired {
                    stamp,
                    actor,
                    name,
                    moment,
                    now: moment_of(now),
                }
            }
            StoreCommand::Get { .. }
            | StoreCommand::GetReminder { .. }
            | StoreCommand::Due { .. } => unreachable!(),
        };
        Ok(PreparedCommand { step })
    }

    /// Changes the tables as the prepared command says, and answers it. The command must be accepted by the tables as
    /// they are, and its memory must be there still. It takes no memory and can't fail.
    #[tactic(auto, unfolding(crate::specs::Prepared::prepared_outcome, crate::specs::Prepared::HasRoom))]
    pub fn apply(&mut self, prepared: PreparedCommand) -> StoreAnswer
        requires accepted { told_in (prepared_outcome prepared self.old.tables) ≡ None }
        requires room { HasRoom prepared self.old }
        ensures { prepared_outcome prepared self.old.tables ≡ Accepted result self.new.tables }
    {
        reminder_law(&self.reminders);
        let PreparedCommand { step } = prepared;
        match step {
            Step::Boot { boot } => StoreAnswer::Booted {
                boot: self.lanes.apply_boot(boot),
            },
            Step::Tx { stamp, tx } => {
                self.state.apply(tx);
                accept(&mut self.lanes, &stamp, LaneAnswer::Done { existed: true })
            }
            Step::PutReminder {
                stamp,
                actor,
                name,
                reminder,
            } => {
                self.reminders.put(actor, name, reminder);
                accept(&mut self.lanes, &stamp, LaneAnswer::Done { existed: true })
            }
            Step::DeleteReminder { stamp, actor, name } => {
                let existed = self.reminders.delete(&actor, &name);
                accept(&mut self.lanes, &stamp, LaneAnswer::Done { existed })
            }
            Step::Fired {
                stamp,
                actor,
                name,
                moment,
                now,
            } => match self.reminders.fired(&actor, &name, moment, now) {
                Ok(next) => accept(&mut self.lanes, &stamp, LaneAnswer::NextIs { next }),
                Err(_) => unreachable!(),
            },
        }
    }
}
