// Moments: nanoseconds since 1970.
ghost use Rattle.std.specs.Prelude.{◌≡◌, ◌<◌};
ghost use Rattle.schedule_text.specs.Range.{end_of_time, moment_of};

use std::marker::Model;

/// Nanoseconds from 1970-01-01T00:00:00Z to 9999-01-01T00:00:00Z, which is past the last moment.
pub const END_OF_TIME: u128 = 253_370_764_800_000_000_000;

/// A moment: nanoseconds since 1970-01-01T00:00:00Z, before 9999-01-01T00:00:00Z.
#[derive(Clone, Copy, Debug, PartialEq, Eq, PartialOrd, Ord)]
pub struct Moment {
    nanos: u128,
}

impl Model for Moment {
    ghost use Rattle.std.specs.Prelude.{ℕ, ◌<◌};
    ghost use Rattle.schedule_text.specs.Range.{end_of_time};
    ghost use Rattle.std.proofs.Common.{refl};

    ghost Value = { ℕ };

    ghost view = { λ a. a.nanos };

    ghost invariant = { λ a. a.nanos < end_of_time };

    ghost inverse = { λ n. record { nanos = n } };

    ghost inverse_ok = { λ a h. refl };
}

impl Moment {
    /// The moment that many nanoseconds after 1970-01-01T00:00:00Z; `None` from 9999 on.
    pub fn from_nanos(nanos: u128) -> Option<Moment>
        ensures { result ≡ moment_of nanos }
    {
        if nanos < END_OF_TIME {
            Some(Moment { nanos })
        } else {
            None
        }
    }

    /// Nanoseconds since 1970.
    pub fn nanos(self) -> u128
        ensures value { result ≡ self }
        ensures range { result < end_of_time }
    {
        self.nanos
    }
}
