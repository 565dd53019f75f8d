// The parts of all members, in the order in which they were booted.
ghost use Rattle.std.specs.Prelude.{◌≡◌, ◌<◌, ◌≤◌, ◌+◌, ◌*◌, ◌^◌, ◌++◌, [], suc, true, false, map, length, slice_get, Some, IfSome, IfNone, IfOk, OnOk, OnErr, MatchOption};
ghost use Rattle.part_model.specs.Part.{PartState, receipt_of, ring_owner};
ghost use Rattle.part_model.specs.Rooms.{IsInRange};
ghost use Rattle.part_model.specs.Settings.{AreShallow};
ghost use Rattle.cluster_model.specs.World.{key_part, place_of_part, was_booted, all_stopped, settings_for, new_parts};
ghost use Rattle.cluster_parts.specs.Layout.{HasNone, IsFirst, AreReceipts, segment, are_all_stopped};
ghost use Rattle.cluster_parts.specs.Views.{StepsAt, member_in};

use crate::home::{Home, home_of};
use crate::known_ids::KnownIds;
use crate::making::make_parts;
use crate::tally::{closes, tally_of};
use actor_names::{ActorKey, ActorType, Member, OutOfMemory};
use part_core::{Part, PartReply, Receipt};
use part_model::{PartEvent, SeenStage};
use std::alloc::Global;
use std::marker::Model;
use world_events::WorldSettings;

/// The parts of all members, in the order in which they were booted: the parts of the member of boot b, from 1, begin at
/// the place (b - 1) * per, from 0. The turns that have begun and ended are counted, up to 2^64 - 1.
#[derive(Drop)]
pub struct Parts {
    per: u8,
    homes: Vec<Home>,
    items: Vec<Part>,
    begun: u64,
    ended: u64,
}

impl Model for Parts {
    ghost use Rattle.std.specs.Prelude.{length};
    ghost use Rattle.cluster_parts.specs.Views.{PartsView, states_of};
    ghost use Rattle.cluster_parts.specs.Layout.{AreLaidOut};

    ghost Value = { PartsView };

    ghost view = { λ a. record { per = a.per; boots = length a.homes.items; parts = states_of a.items.items; begun = a.begun; ended = a.ended } };

    ghost invariant = { λ a. AreLaidOut a.per a.homes.items (states_of a.items.items) };
}

impl Parts {
    /// No parts yet; a member is to have `per` parts, from 1 to 16. It takes no memory.
    pub fn new(alloc: Global, per: u8) -> Parts
        requires many { 0 < per }
        requires few { per ≤ 16 }
        ensures { result ≡ record { per = per; boots = 0; parts = []; begun = 0; ended = 0 } }
    {
        Parts {
            per,
            homes: Vec::new(alloc),
            items: Vec::new(alloc),
            begun: 0,
            ended: 0,
        }
    }

    /// How many parts there are, those of all members.
    pub fn len(&self) -> usize
        ensures { result ≡ length self.now.parts }
    {
        self.items.len()
    }

    /// How many parts a member has, from 1 to 16.
    pub fn per(&self) -> u8
        ensures value { result ≡ self.now.per }
        ensures few { result ≤ 16 }
    {
        self.per
    }

    /// How many members were booted.
    pub fn boots(&self) -> u64
        ensures value { result ≡ self.now.boots }
        ensures fits { result < 2 ^ 63 }
    {
        self.homes.len() as u64
    }

    /// The member of this number, counted from 0 in order of boot, if that many were booted.
    pub fn member(&self, n: u64) -> Option<Member>
        ensures { result ≡ member_in (slice_get self.now.parts (n * self.now.per)) }
    {
        if n >= self.homes.len() as u64 {
            return None;
        }
        let home = self.homes[n as usize];
        Some(Member {
            space: home.space,
            node: home.node,
            boot: n + 1,
        })
    }

    /// How many turns have begun; the count stops at 2^64 - 1.
    pub fn begun(&self) -> u64
        ensures { result ≡ self.now.begun }
    {
        self.begun
    }

    /// How many turns have ended; the count stops at 2^64 - 1.
    pub fn ended(&self) -> u64
        ensures { result ≡ self.now.ended }
    {
        self.ended
    }

    /// The place of a member's first part, if the member was booted; its other parts follow.
    pub fn first_of(&self, member: &Member) -> Option<usize>
        ensures found { MatchOption result (HasNone member.now self.now.parts) (λ first. IsFirst self.now.parts member.now self.now.per first) }
        ensures fits { IfSome result (λ first. first + self.now.per < 2 ^ 63) }
    {
        let boot = member.boot;
        if boot == 0 || boot > self.homes.len() as u64 {
            return None;
        }
        let at = boot as usize - 1;
        if self.homes[at] != home_of(member) {
            return None;
        }
        Some(at * self.per as usize)
    }

    /// The part at this place takes a step. If it runs out of memory, which it may at a call, a poll and a `TakeClosing`,
    /// it answers that and nothing changes.
    pub fn step_at(&mut self, at: usize, event: PartEvent) -> PartReply
        requires place { at < length self.old.parts }
        requires range { IsInRange event }
        ensures step { StepsAt event result at self.old self.new }
        ensures per { self.new.per ≡ self.old.per }
        ensures parts { length self.new.parts ≡ length self.old.parts }
    {
        let closes = closes(&event);
        let part = &mut self.items[at];
        let reply = part.step(event);
        let count = part.calls().len() as u64;
        let tally = tally_of(closes, &reply, count);
        self.begun = self.begun.saturating_add(tally.began);
        self.ended = self.ended.saturating_add(tally.ended);
        reply
    }

    /// The receipt of the part at this place, which stays as it is: a lock at version 0 changes nothing, and a
    /// stopped part gives its receipt at another stop.
    fn receipt_at(&mut self, at: usize) -> Option<Receipt>
        requires { at < length self.old.parts }
        ensures same { self.new ≡ self.old }
        ensures receipt { (p : PartState) → slice_get self.old.parts at ≡ Some p → result ≡ Some (receipt_of ring_owner p) }
    {
        match self.step_at(at, PartEvent::Lock { version: 0 }) {
            PartReply::TableStep { receipt, .. } => Some(receipt),
            _ => match self.step_at(at, PartEvent::StopPart) {
                PartReply::StoppedNow { receipt } => Some(receipt),
                _ => None,
            },
        }
    }

    /// Whether a member was booted.
    pub fn is_booted(&self, member: &Member) -> bool
        ensures { result ≡ was_booted self.now.parts member.now }
    {
        self.first_of(member).is_some()
    }

    /// The place of the member's part of this number, counted from 0; none if the member wasn't booted or has fewer parts.
    pub fn place_of(&self, member: &Member, part: u64) -> Option<usize>
        ensures place { result ≡ place_of_part self.now.parts member.now part }
        ensures within { IfSome result (λ at. at < length self.now.parts) }
    {
        match self.first_of(member) {
            None => None,
            Some(first) => {
                if part < self.per as u64 {
                    Some(first + part as usize)
                } else {
                    None
                }
            }
        }
    }

    /// The place of the member's part in which an actor lives; none if the member wasn't booted. `ids` keeps the hash of the
    /// actor's id, if there is memory for it.
    pub fn key_place_of(&self, ids: &mut KnownIds, member: &Member, key: &ActorKey) -> Option<usize>
        ensures place { result ≡ place_of_part self.now.parts member.now (key_part key.now self.now.per) }
        ensures within { IfSome result (λ at. at < length self.now.parts) }
    {
        self.place_of(member, ids.part_of(&key.id, self.per) as u64)
    }

    /// Whether `count` parts from this place on have stopped.
    fn stopped_from(&mut self, at: usize, count: usize) -> bool
        requires within { at + count ≤ length self.old.parts }
        requires fits { at + count < 2 ^ 64 }
        ensures same { self.new ≡ self.old }
        ensures stopped { result ≡ are_all_stopped (segment self.old.parts at count) }
    {
        if count == 0 {
            return true;
        }
        let receipt = self.receipt_at(at).unwrap();
        match receipt.stage() {
            SeenStage::Stopped => self.stopped_from(at + 1, count - 1),
            _ => false,
        }
    }

    /// Whether all parts of a member have stopped; true for a member that was never booted.
    pub fn all_stopped(&mut self, member: &Member) -> bool
        ensures same { self.new ≡ self.old }
        ensures stopped { result ≡ all_stopped self.old.parts member.now }
    {
        match self.first_of(member) {
            None => true,
            Some(first) => self.stopped_from(first, self.per as usize),
        }
    }

    /// Appends the receipts of `count` parts from this place on.
    fn add_receipts(
        &mut self,
        receipts: &mut Vec<Receipt>,
        at: usize,
        count: usize,
    ) -> Result<(), OutOfMemory>
        requires within { at + count ≤ length self.old.parts }
        requires fits { at + count < 2 ^ 64 }
        ensures same { self.new ≡ self.old }
        ensures added { OnOk result (receipts.new.items ≡ receipts.old.items ++ map (receipt_of ring_owner) (segment self.old.parts at count)) }
    {
        if count == 0 {
            return Ok(());
        }
        receipts.push(self.receipt_at(at).unwrap())?;
        self.add_receipts(receipts, at + 1, count - 1)
    }

    /// The receipts of a member's parts, in order of number; none if it was never booted. An error is want of memory for
    /// the list.
    pub fn receipts(
        &mut self,
        alloc: Global,
        member: &Member,
    ) -> Result<Option<Vec<Receipt>>, OutOfMemory>
        ensures same { self.new ≡ self.old }
        ensures stranger { IfOk result (λ o. IfNone o (was_booted self.old.parts member.now ≡ false)) }
        ensures all { IfOk result (λ o. IfSome o (λ v. AreReceipts self.old.parts member.now v.items)) }
    {
        match self.first_of(member) {
            None => Ok(None),
            Some(first) => {
                let mut receipts = Vec::new(alloc);
                self.add_receipts(&mut receipts, first, self.per as usize)?;
                Ok(Some(receipts))
            }
        }
    }

    /// A node starts, with parts whose types have these settings; the boot is one more than those so far. Out of memory,
    /// nothing changes.
    pub fn boot(
        &mut self,
        alloc: Global,
        member: &Member,
        settings: &WorldSettings,
        kinds: &[ActorType],
    ) -> Result<(), OutOfMemory>
        requires shallow { AreShallow settings.now.kinds }
        requires next { member.now.boot ≡ suc self.old.boots }
        ensures ok { OnOk result (self.new ≡ record self.old { parts = self.old.parts ++ new_parts member.now (settings_for settings.now kinds.now) 0 self.old.per; boots = suc self.old.boots }) }
        ensures err { OnErr result (self.new ≡ self.old) }
    {
        let home = home_of(member);
        let mut made = make_parts(alloc, *member, settings, kinds, self.per)?;
        self.homes.reserve(1)?;
        self.items.append(&mut made)?;
        self.homes.push(home).unwrap();
        Ok(())
    }
}
