// The calls of the script, in the order in which they were made.
ghost use Rattle.std.specs.Prelude.{◌≡◌, ◌<◌, ◌^◌, ◌++◌, ◌∷◌, [], ℕ, suc, Some, length, OnOk, option_map};
ghost use Rattle.cluster_model.specs.World.{CallPlace, call_at, script_number, place_of_call};
ghost use Rattle.cluster_parts.specs.CallIndex.{HasRoom, call_place};

use actor_names::OutOfMemory;
use part_core::PartReply;
use std::alloc::Global;
use std::collections::HashMap;
use std::marker::Model;

/// Where a call was made: the place of the part, from 0 among those of all members, and the part's number for the call.
#[derive(Clone, Copy)]
pub struct CallAt {
    pub place: usize,
    pub call: u64,
}

/// The calls of the script, numbered from 1; none for a call that was refused. An index finds the script's number of a
/// part's call.
#[derive(Drop)]
pub struct Calls {
    items: Vec<Option<CallAt>>,
    numbers: HashMap<(usize, u64), u64>,
}

impl Model for Calls {
    ghost use Rattle.std.specs.Prelude.{◌-◌, vec_len, vec_capacity};
    ghost use Rattle.std.specs.HashMap.{spare};
    ghost use Rattle.cluster_parts.specs.CallIndex.{CallsView, calls_of, IsIndexed};

    ghost Value = { CallsView };

    ghost view = { λ a. record { calls = calls_of a.items.items; room = vec_capacity a.items - vec_len a.items; spare = spare a.numbers } };

    ghost invariant = { λ a. IsIndexed (calls_of a.items.items) a.numbers };
}

/// The number that a part drew for a call, if it wasn't refused.
fn drawn_call(reply: &PartReply) -> Option<u64>
    ensures { (place : ℕ) → option_map (λ call. record { place = place; call = call }) result ≡ place_of_call place reply.now }
{
    match reply {
        PartReply::Begun { call, .. } => Some(*call),
        PartReply::Waits { call, .. } => Some(*call),
        _ => None,
    }
}

impl Calls {
    /// An empty list of calls. It takes no memory.
    pub fn new(alloc: Global) -> Calls
        ensures { result.calls ≡ [] }
    {
        Calls {
            items: Vec::new(alloc),
            numbers: HashMap::new(alloc),
        }
    }

    /// How many calls there are; refused ones count.
    pub fn len(&self) -> usize
        ensures value { result ≡ length self.now.calls }
        ensures fits { result < 2 ^ 63 }
    {
        self.items.len()
    }

    /// The number of the next call, one more than the calls so far.
    pub fn next_call(&self) -> u64
        ensures { result ≡ suc (length self.now.calls) }
    {
        self.items.len() as u64 + 1
    }

    /// Where the call of this number was made, if there is one that wasn't refused.
    pub fn at(&self, call: u64) -> Option<CallAt>
        ensures { option_map call_place result ≡ call_at self.now.calls call }
    {
        if call == 0 || call > self.items.len() as u64 {
            return None;
        }
        self.items[call as usize - 1]
    }

    /// Makes room for one more call; an error is want of memory for it.
    pub fn reserve(&mut self) -> Result<(), OutOfMemory>
        ensures same { self.new.calls ≡ self.old.calls }
        ensures room { OnOk result (HasRoom self.new) }
    {
        self.items.reserve(1)?;
        self.numbers.reserve(1)?;
        Ok(())
    }

    /// Adds a call, which was made at this place and got this reply, in the room that `reserve` made. It takes no memory.
    pub fn add(&mut self, place: usize, reply: &PartReply)
        requires { HasRoom self.old }
        ensures { self.new.calls ≡ self.old.calls ++ place_of_call place reply.now ∷ [] }
    {
        match drawn_call(reply) {
            None => self.items.push(None).unwrap(),
            Some(call) => self.put(place, call),
        }
    }

    /// Adds a call, for which its part drew this number.
    fn put(&mut self, place: usize, call: u64)
        requires { HasRoom self.old }
        ensures { self.new.calls ≡ self.old.calls ++ Some (record { place = place; call = call }) ∷ [] }
    {
        let number = self.items.len() as u64 + 1;
        if self.numbers.get(&(place, call)).is_none() {
            let kept: Result<_, _> = self.numbers.insert((place, call), number);
            let _ = kept.unwrap();
        }
        self.items.push(Some(CallAt { place, call })).unwrap();
    }

    /// The script's number of the call that the part at this place has under this number; 0 if there is none.
    pub fn number_of(&self, place: usize, call: u64) -> u64
        ensures { result ≡ script_number self.now.calls 1 place call }
    {
        match self.numbers.get(&(place, call)) {
            Some(number) => *number,
            None => 0,
        }
    }
}
