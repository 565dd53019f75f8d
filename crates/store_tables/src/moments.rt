// Moments of commands.
ghost use Rattle.std.specs.Prelude.{◌≡◌, ◌<◌};
ghost use Rattle.store_tables.specs.Tables.{nanos_of};

use schedule_text::Moment;

/// The moment that many milliseconds after 1970.
pub(crate) fn moment_of(now: u64) -> Moment
    requires { now < 253370764800000 }
    ensures { result ≡ nanos_of now }
{
    match Moment::from_nanos(u128::from(now) * 1_000_000) {
        Some(moment) => moment,
        None => unreachable!(),
    }
}
