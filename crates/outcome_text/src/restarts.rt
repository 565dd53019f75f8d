// The line of a restart, which has a version for each room.
ghost use Rattle.std.specs.Prelude.{◌≡◌, ◌++◌, length, take, codes, OnOk, OnErr};
ghost use Rattle.outcome_text.specs.Outcomes.{versions_text};

use crate::line_buffer::OutcomeLine;
use crate::names::whole_or_none;
use std::alloc::AllocError;

/// Appends each version after a space, as many as there is memory for.
fn append_versions(
    line: &mut OutcomeLine,
    into: &mut Vec<u8>,
    versions: &[u64],
) -> Result<(), AllocError>
    ensures added { OnOk result (into.new.items ≡ into.old.items ++ versions_text versions.now) }
    ensures kept { take (length into.old.items) into.new.items ≡ into.old.items }
{
    for version in versions {
        line.clear();
        line.put_number(*version);
        line.put_word(" ");
        into.extend_from_slice(line.as_slice())?;
    }
    Ok(())
}

/// Appends the pieces of the line, as many as there is memory for.
fn append_restart(
    line: &mut OutcomeLine,
    into: &mut Vec<u8>,
    versions: &[u64],
) -> Result<(), AllocError>
    ensures added { OnOk result (into.new.items ≡ into.old.items ++ (codes "restart" ++ versions_text versions.now ++ codes "\n")) }
    ensures kept { take (length into.old.items) into.new.items ≡ into.old.items }
{
    into.extend_from_slice(b"restart")?;
    append_versions(line, into, versions)?;
    into.extend_from_slice(b"\n")
}

/// Adds the line of a restart.
pub(crate) fn add_restart(
    line: &mut OutcomeLine,
    into: &mut Vec<u8>,
    versions: &[u64],
) -> Result<(), AllocError>
    ensures added { OnOk result (into.new.items ≡ into.old.items ++ (codes "restart" ++ versions_text versions.now ++ codes "\n")) }
    ensures unchanged { OnErr result (into.new.items ≡ into.old.items) }
{
    let start = into.len();
    let appended = append_restart(line, into, versions);
    whole_or_none(into, start, appended)
}
