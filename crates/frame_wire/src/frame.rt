// Frames: the messages between the processes of a cluster.
use crate::hosts::Hosts;
use crate::mirror::{MirrorAnswer, MirrorCommand};
use crate::refusal::Refusal;
use crate::store_answer::StoreAnswer;
use crate::store_command::{Stamp, StateOps, StoreCommand};
use actor_names::{ActorKey, Member};
use place_table::{AckStage, HostInfo};

/// A message on a connection. A boot, a version and an epoch are at most 2^62.
#[derive(Debug, Drop)]
pub enum Frame {
    /// To the placement: the member of this host wants to serve actors.
    Register {
        host: HostInfo,
    },
    /// To the placement: the member is alive.
    Beat {
        member: Member,
    },
    /// To the placement: the member has done this stage of the round of `version`.
    Ack {
        member: Member,
        stage: AckStage,
        version: u64,
    },
    /// To the placement: the member leaves.
    Leave {
        member: Member,
    },
    /// From the placement: begin no new actor until the table of `version` is in use.
    Lock {
        version: u64,
    },
    /// From the placement: these are the hosts of the table of `version`, at most 256 of one space in byte order of
    /// their nodes, no node twice.
    Update {
        version: u64,
        hosts: Hosts,
    },
    /// From the placement: begin actors by the table of `version`.
    Unlock {
        version: u64,
    },
    /// From the placement: there is nothing to do.
    Idle,
    /// From the placement: the message was refused.
    Refused {
        refusal: Refusal,
    },
    /// From the placement: the member isn't a member any more.
    Gone,
    /// From a placement to its standby: a call on the disk.
    Mirror {
        command: MirrorCommand,
    },
    /// From a standby to its placement.
    Mirrored {
        answer: MirrorAnswer,
    },
    /// To the store.
    Command {
        command: StoreCommand,
    },
    /// To the store: a transaction by a writer of this epoch, which is at most 2^62.
    FencedTx {
        epoch: u64,
        stamp: Stamp,
        actor: ActorKey,
        ops: StateOps,
    },
    /// From the store.
    Answer {
        answer: StoreAnswer,
    },
}
