// Requests to the placement: a node starts, a member is alive, acknowledges or leaves.
ghost use Rattle.std.specs.Prelude.{◌≡◌, suc, IfOk};
ghost use Rattle.cluster_model.specs.World.{host_of};
ghost use Rattle.world_events.specs.declared.event.WorldEvent.TheVariants as lines;
ghost use Rattle.world_run.specs.Worlds.{Happens};

use crate::cluster::Cluster;
use crate::kept::Kept;
use actor_names::{Address, Member, Node, OutOfMemory, Space, read_app_id};
use cluster_parts::nothing;
use member_core::{Ack, collect, may_leave};
use place_table::{ActorTypes, HostInfo};
use std::alloc::Global;
use world_events::{Outcome, WorldError};

/// A host of a script: its node is its application id, and its address is 127.0.0.1:0.
fn host_of(alloc: Global, member: Member, kinds: ActorTypes) -> Result<HostInfo, OutOfMemory>
    ensures { IfOk result (λ host. host ≡ host_of member kinds) }
{
    match read_app_id(alloc, member.node.as_slice()) {
        Err(_) => Err(OutOfMemory),
        Ok(app) => Ok(HostInfo {
            member,
            app,
            address: Address {
                ip: 2130706433,
                port: 0,
            },
            kinds,
        }),
    }
}

impl Cluster {
    /// The member that the next start of the space's node makes.
    fn next_member(&self, space: Space, node: Node) -> Member
        ensures { result ≡ record { space = space; node = node; boot = suc self.now.boots } }
    {
        let boot = self.parts.boots() + 1;
        Member { space, node, boot }
    }

    /// A node of a space starts, and asks to be registered.
    pub(crate) fn boot(
        &mut self,
        alloc: Global,
        space: Space,
        node: Node,
        kinds: ActorTypes,
    ) -> Result<Outcome, WorldError>
        ensures { Happens result self.old self.new (lines.Boot space node kinds) }
    {
        let member = self.next_member(space, node);
        let list = kinds.copy(alloc)?;
        let host = host_of(alloc, member, kinds)?;
        let message = self.next_message();
        self.post.ask(Kept::Register { host })?;
        let seated = self
            .parts
            .boot(alloc, &member, &self.settings, list.as_slice());
        if seated.is_err() {
            self.post.withdraw();
            return Err(WorldError::OutOfMemory);
        }
        Ok(Outcome::Booted { member, message })
    }

    /// A member asks what there is to do.
    pub(crate) fn beat(&mut self, member: Member) -> Result<Outcome, WorldError>
        ensures { Happens result self.old self.new (lines.Beat member) }
    {
        if !self.parts.is_booted(&member) {
            return Ok(nothing());
        }
        let message = self.next_message();
        self.post.ask(Kept::Beat { member })?;
        Ok(Outcome::BeatAdded { message })
    }

    /// A member acknowledges what its parts have reached.
    pub(crate) fn collect(&mut self, alloc: Global, member: Member) -> Result<Outcome, WorldError>
        ensures { Happens result self.old self.new (lines.Collect member) }
    {
        let Some(receipts) = self.parts.receipts(alloc, &member)? else {
            return Ok(nothing());
        };
        match collect(&member, receipts.as_slice()) {
            Err(_) => unreachable!(),
            Ok(None) => Ok(Outcome::NoAck),
            Ok(Some(Ack { stage, version })) => {
                let message = self.next_message();
                self.post.ask(Kept::Ack {
                    member,
                    stage,
                    version,
                })?;
                Ok(Outcome::AckAdded {
                    message,
                    stage,
                    version,
                })
            }
        }
    }

    /// A member whose parts have all stopped leaves.
    pub(crate) fn leave(&mut self, alloc: Global, member: Member) -> Result<Outcome, WorldError>
        ensures { Happens result self.old self.new (lines.Leave member) }
    {
        let Some(receipts) = self.parts.receipts(alloc, &member)? else {
            return Ok(nothing());
        };
        match may_leave(&member, receipts.as_slice()) {
            Err(_) => unreachable!(),
            Ok(false) => Ok(Outcome::NotStopped),
            Ok(true) => {
                let message = self.next_message();
                self.post.ask(Kept::Leave { member })?;
                Ok(Outcome::LeaveAdded { message })
            }
        }
    }
}
