// A depth of reentrancy.
ghost use Rattle.std.specs.Prelude.{◌≤◌};

/// The greatest number of open turns of one chain on one actor, at most 1,024.
#[derive(Clone, Copy)]
pub struct Depth {
    pub value: u32,
    ghost in_range: { value ≤ 1024 },
}
