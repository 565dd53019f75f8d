// How the program ends.
ghost use Rattle.std.specs.Prelude.{◌≡◌};

/// How the program ends, by the status that it gives to its caller.
#[derive(Clone, Copy, PartialEq, Eq)]
pub enum Status {
    /// The command did its whole work; a script was read to its end.
    Done = 0,
    /// The words have no reading.
    Usage = 2,
    /// A line of the script or a text of the schedule is refused; its place or fault was printed.
    Refused = 3,
    /// The source failed; nothing was written.
    SourceFault = 4,
    /// The sink failed; a prefix of the output was written.
    SinkFault = 5,
    /// Out of memory; a prefix of the output was written, of a schedule or a drill nothing.
    OutOfMemory = 8,
    /// The script exceeds its limit of bytes or lines, which was printed.
    Limit = 10,
}
