// The formats of a file, which its name gives.
ghost use Rattle.std.specs.Prelude.{◌≡◌, ◌∷◌, [], ◌++◌};
ghost use Rattle.tx_journal.specs.File.{name};

/// The format of a file: the first, for a file of its own, or the second, for a file that was made in a pair.
#[derive(Clone, Copy)]
pub enum Format {
    One,
    Two,
}

// The name of the format, followed by a closed gate.
pub(crate) fn front_of(format: Format) -> [u8; 8]
    ensures { result ≡ name format ++ 0 ∷ [] }
{
    match format {
        Format::One => *b"ACTJRN1\0",
        Format::Two => *b"ACTJRN2\0",
    }
}
