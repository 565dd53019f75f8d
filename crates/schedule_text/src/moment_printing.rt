// Prints moments.
ghost use Rattle.std.specs.Prelude.{◌≡◌, false, Some, Ok, IfOk, IfErr, if◌then◌else◌, string_bytes};
ghost use Rattle.jiff_fmt.specs.Printer.{options};
ghost use Rattle.schedule_text.specs.declared.error.ScheduleError.TheVariants.{OutOfMemory};
ghost use Rattle.schedule_text.specs.Moments.{moment_text, read_moment};

use crate::calendar::timestamp_of;
use crate::error::ScheduleError;
use crate::moment::Moment;
use jiff::fmt::temporal::DateTimePrinter;
use std::alloc::Global;

// The printer of moments: it writes no fraction for a whole second, and nine digits for any other moment.
fn printer(is_whole: bool) -> DateTimePrinter
    ensures { options result ≡ (false, 84, Some (if is_whole then 0 else 9)) }
{
    let digits = if is_whole { 0 } else { 9 };
    DateTimePrinter::new().precision(Some(digits))
}

/// Prints a moment in UTC, as `YYYY-MM-DDThh:mm:ssZ`, with nine digits of nanoseconds if they aren't 0. Its only
/// error is `OutOfMemory`.
pub fn print_moment(alloc: Global, moment: Moment) -> Result<String, ScheduleError>
    ensures text { IfOk result (λ text. string_bytes text ≡ moment_text moment) }
    // Reading it again gives the moment.
    ensures reads_back { IfOk result (λ text. read_moment (string_bytes text) ≡ Ok moment) }
    ensures err { IfErr result (λ e. e ≡ OutOfMemory) }
{
    let timestamp = timestamp_of(moment);
    let is_whole = timestamp.subsec_nanosecond() == 0;
    let text = printer(is_whole).timestamp_text(timestamp.to_plain());
    Ok(String::from_str(alloc, text.as_str())?)
}
