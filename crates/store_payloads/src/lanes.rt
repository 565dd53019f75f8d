// The numbers of a lane with their answers.
ghost use Rattle.std.specs.Prelude.{◌≡◌, ◌++◌, None, length, OnOk};
ghost use Rattle.wire_fields.specs.Fields.{many_at, spell_all, in_any_order, AllFit, number16};
ghost use Rattle.wire_fields.specs.Gives.{Gives};
ghost use Rattle.store_payloads.specs.Fields.{lane_answer, kept_number, kept_numbers};

use actor_names::OutOfMemory;
use stamp_lanes::{KeptNumber, KeptNumbers, LaneAnswer};
use std::alloc::Global;
use store_tables::LaneNumbers;
use wire_fields::{
    Fault, flag_at, next_at, put_flag, put_next, put_tag, put_u16, put_u64, u16_at, u64_at,
};

const DONE: u8 = 49;

const NEXT_IS: u8 = 54;

#[tactic(auto, unfolding(crate::specs::Fields::lane_answer))]
fn answer_at(rest: &mut &[u8]) -> Result<LaneAnswer, Fault>
    ensures { Gives (λ x. (x, rest.new.now)) result (lane_answer.at rest.old.now) }
{
    match *rest {
        [49, others @ ..] => {
            *rest = others;
            let existed = flag_at(rest)?;
            Ok(LaneAnswer::Done { existed })
        }
        [54, others @ ..] => {
            *rest = others;
            let next = next_at(rest)?;
            Ok(LaneAnswer::NextIs { next })
        }
        _ => Err(Fault::Field { left: rest.len() }),
    }
}

#[tactic(auto, unfolding(crate::specs::Fields::kept_number))]
fn number_at(rest: &mut &[u8]) -> Result<KeptNumber, Fault>
    ensures { Gives (λ x. (x, rest.new.now)) result (kept_number.at rest.old.now) }
{
    let number = u64_at(rest)?;
    let answer = answer_at(rest)?;
    Ok(KeptNumber { number, answer })
}

fn number_list_at(alloc: Global, count: u16, rest: &mut &[u8]) -> Result<Vec<KeptNumber>, Fault>
    ensures { Gives (λ x. (x.items, rest.new.now)) result (many_at (in_any_order kept_number) None count rest.old.now) }
{
    let mut numbers = Vec::new(alloc);
    for _ in 0..count {
        let KeptNumber { number, answer } = number_at(rest)?;
        numbers.push(KeptNumber { number, answer })?;
    }
    Ok(numbers)
}

/// Reads the numbers of a lane behind their count of two bytes.
#[tactic(auto, unfolding(crate::specs::Fields::kept_numbers))]
pub(crate) fn numbers_at(alloc: Global, rest: &mut &[u8]) -> Result<LaneNumbers, Fault>
    ensures { Gives (λ x. (x, rest.new.now)) result (kept_numbers.at rest.old.now) }
{
    let count = u16_at(rest)?;
    let numbers = number_list_at(alloc, count, rest)?;
    Ok(LaneNumbers::from_vec(numbers))
}

#[tactic(auto, unfolding(crate::specs::Fields::lane_answer))]
fn put_answer(out: &mut Vec<u8>, answer: LaneAnswer) -> Result<(), OutOfMemory>
    requires { lane_answer.Fits answer }
    ensures { OnOk result (out.new.items ≡ out.old.items ++ lane_answer.spell answer) }
{
    match answer {
        LaneAnswer::Done { existed } => {
            put_tag(out, DONE)?;
            put_flag(out, existed)
        }
        LaneAnswer::NextIs { next } => {
            put_tag(out, NEXT_IS)?;
            put_next(out, next)
        }
    }
}

#[tactic(auto, unfolding(crate::specs::Fields::kept_number))]
fn put_number(out: &mut Vec<u8>, kept: &KeptNumber) -> Result<(), OutOfMemory>
    requires { kept_number.Fits kept.now }
    ensures { OnOk result (out.new.items ≡ out.old.items ++ kept_number.spell kept.now) }
{
    put_u64(out, kept.number)?;
    put_answer(out, kept.answer)
}

// Appends some of a lane's numbers one after another.
fn put_piece(out: &mut Vec<u8>, numbers: &[KeptNumber]) -> Result<(), OutOfMemory>
    requires { AllFit (in_any_order kept_number) None numbers.now }
    ensures { OnOk result (out.new.items ≡ out.old.items ++ spell_all kept_number.spell numbers.now) }
{
    for number in numbers {
        put_number(out, number)?;
    }
    Ok(())
}

// Appends the numbers one after another.
fn put_number_list(out: &mut Vec<u8>, kept: &KeptNumbers) -> Result<(), OutOfMemory>
    requires { AllFit (in_any_order kept_number) None kept.now }
    ensures { OnOk result (out.new.items ≡ out.old.items ++ spell_all kept_number.spell kept.now) }
{
    let (first, second) = kept.as_slices();
    put_piece(out, first)?;
    put_piece(out, second)
}

/// Appends the numbers of a lane behind their count of two bytes.
#[tactic(auto, unfolding(crate::specs::Fields::kept_numbers, wire_fields::specs::Fields::number16))]
pub(crate) fn put_numbers(out: &mut Vec<u8>, kept: &KeptNumbers) -> Result<(), OutOfMemory>
    requires { kept_numbers.Fits kept.now }
    ensures { OnOk result (out.new.items ≡ out.old.items ++ kept_numbers.spell kept.now) }
{
    put_u16(out, kept.len())?;
    put_number_list(out, kept)
}
