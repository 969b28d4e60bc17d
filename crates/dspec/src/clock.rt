/// What stamps records. The library reads no clock: a program gives one, as over the time of its system or a counter of its own.
pub trait Clock {
    ghost use Rattle.std.specs.Prelude.{ℕ};

    // Which stamps the clock may give. Whoever promises nothing of them leaves it out.
    ghost stamps: { Self → ℕ → Type 0 } = { λ _ _. Unit {0} };

    /// The stamp of a record that is made now, in whatever unit the clock counts.
    fn stamp(&self) -> u64
        ensures { stamps self.now result };
}
