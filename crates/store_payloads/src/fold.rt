// Payloads one after another, and the tables that they lead to.
ghost use Rattle.std.specs.Prelude.{◌≡◌, ◌<◌, true, None, Some, if◌then◌else◌, IfOk};
ghost use Rattle.store_payloads.specs.FirstForm.{reading_in};
ghost use Rattle.store_payloads.specs.Fits.{TablesFit};
ghost use Rattle.store_payloads.specs.Folds.{start, folded, after_set, after_act};

use crate::error::PayloadError;
use crate::first_form::read_in;
use crate::payload::{PayloadBody, StorePayload};
use actor_names::OutOfMemory;
use frame_wire::StoreCommand;
use std::alloc::Global;
use std::marker::Model;
use store_tables::{RowKey, StoreTables, TableRow};

/// Where the next payload comes.
#[derive(Drop)]
pub(crate) enum FoldPlace {
    /// Among the rows of a snapshot, behind the one with this key.
    Rows { last: Option<RowKey> },
    /// Among commands.
    Commands,
}

/// What the payloads that it was given lead to.
#[derive(Drop)]
pub struct StoreFold {
    tables: StoreTables,
    place: FoldPlace,
    alloc: Global,
}

impl Model for StoreFold {
    ghost use Rattle.store_payloads.specs.Folds.{Folded};

    ghost Value = { Folded };

    ghost view = { λ f. record { tables = f.tables.tables; place = f.place } };
}

impl StoreFold {
    /// Before the first payload: behind a Generation or, if `is_snapshot` is false, without one. It takes no memory.
    pub fn new(alloc: Global, is_snapshot: bool) -> StoreFold
        ensures start { result ≡ start is_snapshot }
        ensures fits { TablesFit result.tables }
    {
        let place = if is_snapshot {
            FoldPlace::Rows { last: None }
        } else {
            FoldPlace::Commands
        };
        StoreFold {
            tables: StoreTables::new(alloc),
            place,
            alloc,
        }
    }

    // Lets a command act; false if it isn't accepted.
    #[tactic(auto, using(crate::proofs::Acts::told_none, crate::proofs::Acts::accepted_some))]
    fn act(&mut self, command: StoreCommand, now: u64) -> Result<bool, OutOfMemory>
        requires { now < 253370764800000 }
        ensures { IfOk result (λ done. after_act command now self.old ≡ (if done then Some self.new else None)) }
    {
        let None = self.tables.told(&command, now)? else {
            return Ok(false);
        };
        let prepared = self.tables.prepare(command, now)?;
        let _answer = self.tables.apply(prepared);
        self.place = FoldPlace::Commands;
        Ok(true)
    }

    // Takes in a row of a snapshot; false if it can't come here.
    fn set(&mut self, row: TableRow) -> Result<bool, OutOfMemory>
        ensures { IfOk result (λ done. after_set row self.old ≡ (if done then Some self.new else None)) }
    {
        let key = row.key(self.alloc)?;
        let FoldPlace::Rows { last } = &self.place else {
            return Ok(false);
        };
        if !key.is_behind(last) {
            return Ok(false);
        }
        if !self.tables.restore(row)? {
            return Ok(false);
        }
        self.place = FoldPlace::Rows { last: Some(key) };
        Ok(true)
    }

    /// Takes the next payload, of the first form if `is_first` is true. False exactly if it has no reading, or can't
    /// come here: it is of a command that isn't accepted, or of a row that comes elsewhere. Don't go on after `false` or
    /// `OutOfMemory`.
    pub fn take(&mut self, payload: &[u8], is_first: bool) -> Result<bool, OutOfMemory>
        ensures folded { IfOk result (λ done. folded (reading_in is_first payload.now) self.old ≡ (if done then Some self.new else None)) }
        ensures fits { IfOk result (λ done. done ≡ true → TablesFit self.old.tables → TablesFit self.new.tables) }
    {
        let StorePayload { now, body } = match read_in(self.alloc, payload, is_first) {
            Ok(payload) => payload,
            Err(PayloadError::NoReading) => return Ok(false),
            Err(PayloadError::OutOfMemory) => return Err(OutOfMemory),
        };
        match body {
            PayloadBody::Command { command } => self.act(command, now),
            PayloadBody::Row { row } => self.set(row),
        }
    }

    /// The tables to which the payloads lead.
    pub fn into_tables(self) -> StoreTables
        ensures { result.tables ≡ self.tables }
    {
        let StoreFold { tables, .. } = self;
        tables
    }
}
