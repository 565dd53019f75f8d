// Why a line of a cluster script is refused.
use actor_names::OutOfMemory;
use thiserror::Error;

/// Why a line of a cluster script isn't read.
#[derive(Clone, Copy, Debug, Error)]
pub enum LineError {
    /// The first word that isn't allowed begins at this column, from 1 and in bytes; or a word is missing there, one
    /// past the line's end.
    #[error("bad column {column}")]
    BadColumn { column: u64 },
    /// There was no memory for the names in the line, which isn't refused.
    #[error("out of memory")]
    OutOfMemory,
}

impl From<u64> for LineError {
    ghost use Rattle.std.specs.Prelude.{◌≡◌};
    ghost use Rattle.script_text.specs.declared.error.LineError.TheVariants.{BadColumn as bad_column};

    ghost from_gives = { λ column e. e ≡ bad_column column };

    fn from(column: u64) -> LineError {
        LineError::BadColumn { column }
    }
}

impl From<OutOfMemory> for LineError {
    ghost use Rattle.std.specs.Prelude.{◌≡◌};
    ghost use Rattle.script_text.specs.declared.error.LineError.TheVariants.{OutOfMemory as out_of_memory};

    ghost from_gives = { λ _ e. e ≡ out_of_memory };

    fn from(_: OutOfMemory) -> LineError {
        LineError::OutOfMemory
    }
}
