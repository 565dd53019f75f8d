// Refusals of the placement, read from the start of some bytes and appended to others.
ghost use Rattle.std.specs.Prelude.{◌≡◌, ◌++◌, OnOk};
ghost use Rattle.wire_fields.specs.Gives.{Gives};
ghost use Rattle.frame_wire.specs.Refusals.{refusal};

use crate::refusal::Refusal;
use lists_and_limits::OutOfMemory;
use wire_fields::{
    Fault, counter_at, fixed_at, put_counter, put_small, put_tag, put_u64, small_at, u64_at,
};

#[tactic(auto, unfolding(crate::specs::Refusals::refusal))]
pub(crate) fn refusal_at(rest: &mut &[u8]) -> Result<Refusal, Fault>
    ensures { Gives (λ x. (x, rest.new.now)) result (refusal.at rest.old.now) }
{
    let [code, others @ ..] = *rest else {
        return Err(Fault::Field { left: 0 });
    };
    let left = rest.len();
    *rest = others;
    match *code {
        1 => Ok(Refusal::StaleBoot {
            greatest: counter_at(rest)?,
        }),
        2 => Ok(Refusal::NodeBusy {
            boot: counter_at(rest)?,
        }),
        3 => Ok(Refusal::NotMember {
            greatest: counter_at(rest)?,
        }),
        4 => Ok(Refusal::Full {
            members: small_at(rest)?,
        }),
        5 => {
            fixed_at(rest, 0)?;
            Ok(Refusal::DiskFault)
        }
        6 => {
            fixed_at(rest, 0)?;
            Ok(Refusal::Reopen)
        }
        7 => {
            fixed_at(rest, 0)?;
            Ok(Refusal::OutOfMemory)
        }
        8 => Ok(Refusal::JournalFull { len: u64_at(rest)? }),
        9 => Ok(Refusal::SpacesFull {
            spaces: small_at(rest)?,
        }),
        _ => Err(Fault::Field { left }),
    }
}

#[tactic(auto, unfolding(crate::specs::Refusals::refusal))]
pub(crate) fn put_refusal(out: &mut Vec<u8>, one: &Refusal) -> Result<(), OutOfMemory>
    requires { refusal.Fits one.now }
    ensures { OnOk result (out.new.items ≡ out.old.items ++ refusal.spell one.now) }
{
    match one {
        Refusal::StaleBoot { greatest } => {
            put_tag(out, 1)?;
            put_counter(out, *greatest)
        }
        Refusal::NodeBusy { boot } => {
            put_tag(out, 2)?;
            put_counter(out, *boot)
        }
        Refusal::NotMember { greatest } => {
            put_tag(out, 3)?;
            put_counter(out, *greatest)
        }
        Refusal::Full { members } => {
            put_tag(out, 4)?;
            put_small(out, *members)
        }
        Refusal::DiskFault => {
            put_tag(out, 5)?;
            put_u64(out, 0)
        }
        Refusal::Reopen => {
            put_tag(out, 6)?;
            put_u64(out, 0)
        }
        Refusal::OutOfMemory => {
            put_tag(out, 7)?;
            put_u64(out, 0)
        }
        Refusal::JournalFull { len } => {
            put_tag(out, 8)?;
            put_u64(out, *len)
        }
        Refusal::SpacesFull { spaces } => {
            put_tag(out, 9)?;
            put_small(out, *spaces)
        }
    }
}
