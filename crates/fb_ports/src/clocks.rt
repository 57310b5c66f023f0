//! The time of day.
ghost use Rattle.std.specs.Prelude.{ℤ};

/// A clock, in milliseconds since 1970 began.
pub trait Clock {
    /// What a reading may be.
    ghost may_answer: { Self → ℤ → Type 0 };

    fn now(&self) -> i64
        ensures { may_answer self.now result };
}
