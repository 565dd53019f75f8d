// What the threads of a server share.
ghost use Rattle.std.specs.Prelude.{IfSome};

/// What the threads of a server share. Each has a pass of its own: what a thread has to have to do its work.
pub trait Service<P: Drop + Send>: Sync {
    /// Which passes it takes.
    ghost admits: { Self → P → Type 0 };

    /// One more pass, if there is memory for it.
    fn split(&self, pass: P) -> (P, Option<P>)
        requires { admits self.now pass }
        ensures kept { admits self.now result.0 }
        ensures given { IfSome result.1 (λ p. admits self.now p) };

    /// How many works stand beside the connections. Each is named by its number, from 0.
    fn works(&self) -> u32;

    /// How many connections of a port are served at once at most, each with a thread and a buffer of 65,536 bytes. One
    /// beyond them waits to be accepted.
    fn most_at_once(&self) -> u64;

    /// Whether the service is over: no further connection is to be served, and no further turn to be made.
    fn is_over(&self) -> bool;

    /// Says that it is over.
    fn end(&self);
}
