// The world of a solo script: what happens in it and what comes of it.
ghost use Rattle.std.specs.Prelude.{◌≡◌, ◌<◌, ◌≤◌, ◌^◌, ◌++◌, ◌∷◌, [], false, OnOk, OnErr, option_copied};
ghost use Rattle.turn_core.specs.Cell.{greatest_depth};
ghost use Rattle.world_events.specs.Solo.{Call, End, Poll, Hold, Release, event_told};
ghost use Rattle.solo_run.specs.World.{new_state, has_depth};
ghost use Rattle.solo_run.specs.WorldTold.{place_of_call};
ghost use Rattle.solo_run.specs.Steps.{GivesStep, GivesOutcome};

use crate::calling::ask_actor;
use crate::interner::Interner;
use crate::turns::{end_call, poll_call, release_hold};
use crate::types::Types;
use actor_names::OutOfMemory;
use std::alloc::Global;
use std::marker::Model;
use turn_core::Cell;
use world_events::{SoloEvent, TurnOutcome, WorldError};

/// The greatest number of events of a world, 2^62.
const MOST_EVENTS: u64 = 1 << 62;

/// The greatest place of an actor. Each call keeps its actor's place, in four bytes.
const GREATEST_PLACE: usize = u32::MAX as usize;

/// The cells of the actors that were called, and the depths of their types. The place of the actor that was called
/// last is kept, since calls of one actor often follow each other.
#[derive(Drop)]
pub struct SoloWorld {
    types: Types,
    keys: Interner,
    cells: Vec<Cell>,
    calls: Vec<Option<u32>>,
    near: usize,
    events: u64,
}

impl Model for SoloWorld {
    ghost use Rattle.solo_run.specs.World.{SoloState};

    ghost Value = { SoloState };

    ghost use Rattle.solo_run.specs.WorldTold.{actors_told, calls_told, IsWorldKept};

    ghost view = { λ a. record { depths = a.types; actors = actors_told a.keys a.cells.items; calls = calls_told a.keys a.calls.items; events = a.events } };

    ghost invariant = { λ a. IsWorldKept a.keys a.cells.items a.calls.items a.events };
}

impl SoloWorld {
    /// A world in which nothing has happened.
    pub fn new(alloc: Global) -> SoloWorld
        ensures { result ≡ new_state }
    {
        SoloWorld {
            types: Types::new(alloc),
            keys: Interner::new(alloc),
            cells: Vec::new(alloc),
            calls: Vec::new(alloc),
            near: 0,
            events: 0,
        }
    }

    /// Whether a type has reentrancy on.
    pub fn has_depth(&self, kind: &[u8]) -> bool
        ensures { result ≡ has_depth kind.now self.now.depths }
    {
        self.types.has(kind)
    }

    /// Gives a type a depth of at most 1,024; reentrancy is off at 0.
    pub fn set_depth(&mut self, alloc: Global, kind: &[u8], depth: u32) -> Result<(), OutOfMemory>
        requires fresh { has_depth kind.now self.old.depths ≡ false }
        requires shallow { depth ≤ greatest_depth }
        ensures set { OnOk result (self.new ≡ record self.old { depths = self.old.depths ++ record { kind = kind.now; depth = depth } ∷ [] }) }
        ensures unchanged { OnErr result (self.new ≡ self.old) }
    {
        self.types.add(alloc, kind, depth)
    }

    /// What comes of an event, or why it is refused; a refusal changes nothing.
    pub fn step(&mut self, alloc: Global, event: SoloEvent<'_>) -> Result<TurnOutcome, WorldError>
        ensures { GivesStep result self.old self.new (event_told event.entry) }
    {
        if self.events == MOST_EVENTS {
            return Err(WorldError::Spent { count: MOST_EVENTS });
        }
        match event {
            SoloEvent::Call { call, key, chain } => self.call(alloc, call, key, chain),
            SoloEvent::End { call } => Ok(self.end(call)),
            SoloEvent::Poll { call } => Ok(self.poll(call)),
            SoloEvent::Hold { key } => Ok(self.hold(key)),
            SoloEvent::Release { key } => Ok(self.release(key)),
        }
    }

    /// A call of an actor; its number has to be one more than the calls so far.
    fn call(
        &mut self,
        alloc: Global,
        number: u64,
        key: &[u8],
        chain: Option<&[u8]>,
    ) -> Result<TurnOutcome, WorldError>
        requires { self.old.events < 2 ^ 62 }
        ensures { GivesStep result self.old self.new (Call number key.now (option_copied chain.entry)) }
    {
        let next = self.calls.len() as u64 + 1;
        if number != next {
            return Err(WorldError::WrongNumber { next });
        }
        if self.keys.len() > GREATEST_PLACE {
            return Err(WorldError::OutOfMemory);
        }
        self.calls.reserve(1)?;
        let (place, admission) = ask_actor(
            alloc,
            &self.types,
            &mut self.keys,
            &mut self.cells,
            self.near,
            number,
            key,
            chain,
        )?;
        self.calls.push(admission.actor(place as u32)).unwrap();
        self.near = place;
        self.events += 1;
        Ok(admission.outcome)
    }

    /// The end of a call's turn.
    fn end(&mut self, call: u64) -> TurnOutcome
        requires { self.old.events < 2 ^ 62 }
        ensures { GivesOutcome result self.old self.new (End call) }
    {
        self.events += 1;
        let Some(place) = place_of_call(&self.calls, call) else {
            return TurnOutcome::NotThere;
        };
        end_call(&mut self.cells[place], call)
    }

    /// What state a call is in.
    fn poll(&mut self, call: u64) -> TurnOutcome
        requires { self.old.events < 2 ^ 62 }
        ensures { GivesOutcome result self.old self.new (Poll call) }
    {
        self.events += 1;
        let Some(place) = place_of_call(&self.calls, call) else {
            return TurnOutcome::NotThere;
        };
        poll_call(&mut self.cells[place], call)
    }

    /// One more hold of an actor that was called.
    fn hold(&mut self, key: &[u8]) -> TurnOutcome
        requires { self.old.events < 2 ^ 62 }
        ensures { GivesOutcome result self.old self.new (Hold key.now) }
    {
        self.events += 1;
        let Some(place) = self.keys.find(key) else {
            return TurnOutcome::NotActive;
        };
        self.cells[place].hold();
        TurnOutcome::Held
    }

    /// One hold of an actor fewer.
    fn release(&mut self, key: &[u8]) -> TurnOutcome
        requires { self.old.events < 2 ^ 62 }
        ensures { GivesOutcome result self.old self.new (Release key.now) }
    {
        self.events += 1;
        let Some(place) = self.keys.find(key) else {
            return TurnOutcome::NotHeld;
        };
        release_hold(&mut self.cells[place])
    }
}

/// The place of a call's actor, none if the call was refused or never made.
fn place_of_call(calls: &[Option<u32>], call: u64) -> Option<usize>
    ensures { result ≡ place_of_call call calls.now }
{
    if call == 0 || call > calls.len() as u64 {
        return None;
    }
    match calls[call as usize - 1] {
        Some(place) => Some(place as usize),
        None => None,
    }
}
