// The fence before the store, for the commands of a list.
ghost use Rattle.std.specs.Prelude.{◌≡◌, ◌<◌, ◌^◌, false, IfOk};
ghost use Rattle.store_payloads.specs.Laws.{MayCome};
ghost use Rattle.store_core.specs.Store.{StoreState};
ghost use Rattle.store_core.specs.Lists.{Decides};
ghost use Rattle.fence_rows.specs.Epochs.{epoch_told, actor_epoch};
ghost use Rattle.fence_rows.specs.Together.{fence_rules, SharedFits};

use crate::epoch::{epoch_in, epoch_key};
use crate::event::{FencedAnswer, FencedCommand, FencedEvent, FencedOutcome};
use crate::operations::with_epoch;
use crate::plain::plain_answer;
use crate::refusals::{refused, tx_refusal};
use actor_names::{ActorKey, OutOfMemory};
use frame_wire::{Stamp, StateOps, StoreAnswer, StoreCommand, StoreRefusal};
use std::alloc::Global;
use store_core::{Guard, Guarded};
use store_tables::StoreTables;

/// The fence: it passes on a command without an epoch, and a transaction whose epoch is at least the actor's.
pub(crate) struct Fence;

// The epoch of an actor, as the answer for its key tells it.
fn epoch_told(answer: Option<StoreAnswer>) -> u64
    ensures { result ≡ epoch_told answer }
{
    match answer {
        Some(StoreAnswer::Value { value }) => epoch_in(&value),
        _ => 0,
    }
}

// The epoch of an actor, by these tables.
fn epoch_of(
    alloc: Global,
    tables: &StoreTables,
    actor: &ActorKey,
    now: u64,
) -> Result<u64, OutOfMemory>
    requires { now < 253370764800000 }
    ensures { IfOk result (λ seen. seen ≡ actor_epoch actor.now now tables.now.tables) }
{
    let actor = actor.copy(alloc)?;
    let key = epoch_key(alloc)?;
    let answer = tables.told(&StoreCommand::Get { actor, key }, now)?;
    Ok(epoch_told(answer))
}

// An answer in place of the store.
fn answered(answer: FencedAnswer) -> Guarded<FencedOutcome>
    ensures { result ≡ Guarded.Answer (FencedOutcome.Answer answer) }
{
    Guarded::Answer {
        answer: FencedOutcome::Answer { answer },
    }
}

// Passes on a command without an epoch, or answers it.
fn pass_plain(command: StoreCommand, now: u64) -> Guarded<FencedOutcome>
    requires { MayCome (record { now = now; command = command }) }
    ensures { (s : StoreState) → Decides fence_rules SharedFits s (FencedEvent.Command (FencedCommand.Plain command) now) result }
{
    match plain_answer(&command) {
        Some(answer) => answered(answer),
        None => Guarded::Pass { command, now },
    }
}

// Passes on a transaction of an epoch to a store that has met no fault, or refuses it.
fn pass_transaction(
    alloc: Global,
    tables: &StoreTables,
    epoch: u64,
    stamp: Stamp,
    actor: ActorKey,
    ops: StateOps,
    now: u64,
) -> Guarded<FencedOutcome>
    requires { MayCome (record { now = now; command = StoreCommand.Tx stamp actor ops }) }
    ensures decides { (s : StoreState) → s.contents ≡ tables.now.tables → s.journal.is_broken ≡ false → Decides fence_rules SharedFits s (FencedEvent.Command (FencedCommand.Tx epoch (StoreCommand.Tx stamp actor ops)) now) result }
    ensures short { epoch < 2 ^ 64 }
{
    let Ok(seen) = epoch_of(alloc, tables, &actor, now) else {
        return answered(refused(StoreRefusal::OutOfMemory));
    };
    if let Some(answer) = tx_refusal(epoch, seen, ops.as_slice()) {
        return answered(answer);
    }
    match with_epoch(alloc, ops, epoch) {
        Ok(ops) => Guarded::Pass {
            command: StoreCommand::Tx { stamp, actor, ops },
            now,
        },
        Err(_) => answered(refused(StoreRefusal::OutOfMemory)),
    }
}

impl Guard for Fence {
    ghost use Rattle.fence_rows.specs.Together.{fence_rules, MayShare, SharesShort, SharedFits};
    ghost use Rattle.fence_rows.specs.Reopening.{reopens};

    type Asked = FencedEvent;

    type Answer = FencedOutcome;

    ghost rules = { fence_rules };

    ghost may = { MayShare };

    ghost fits = { SharedFits };

    ghost short = { SharesShort };

    fn guard(
        alloc: Global,
        tables: &StoreTables,
        is_broken: bool,
        asked: FencedEvent,
    ) -> Guarded<FencedOutcome> {
        let FencedEvent::Command { command, now } = asked else {
            unreachable!();
        };
        match command {
            FencedCommand::Plain { command } => pass_plain(command, now),
            FencedCommand::Tx { epoch, command } => match command {
                StoreCommand::Tx { stamp, actor, ops } => {
                    if is_broken {
                        return answered(refused(StoreRefusal::Reopen));
                    }
                    pass_transaction(alloc, tables, epoch, stamp, actor, ops, now)
                }
                _ => unreachable!(),
            },
        }
    }

    fn told(given: StoreAnswer) -> FencedOutcome {
        FencedOutcome::Answer {
            answer: FencedAnswer::Answer { answer: given },
        }
    }

    ghost reopens = { reopens };
}
