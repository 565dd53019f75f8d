// What holds of words that have a reading.
ghost use Rattle.std.specs.Prelude.{◌≡◌, List, Some};
ghost use Rattle.command_words.specs.Options.{Text};
ghost use Rattle.command_words.specs.Reading.{Sidecar, Seating, reading};
ghost use Rattle.command_words.specs.Seated.{IsSeated};

/// Words of `sidecar` that have a reading name a node, an application and a space that the readers of `actor_names` accept,
/// and 1 to 16 parts.
pub fn seating_law()
    ensures seated { (words : List Text) (s : Seating) → reading words ≡ Some (Sidecar s) → IsSeated s }
{}
