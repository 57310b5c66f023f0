//! What a test is.
ghost use Rattle.std.specs.Prelude.{◌≡◌, Bool};
ghost use Rattle.fb_values.specs.declared.facts.Datom.{Datom as TheDatom};

use fb_values::Datom;

/// Says of each datom whether it passes.
pub trait Check: Drop {
    /// Which datoms pass. It is a function, as what a guard bars is one of the changes.
    ghost passes: { Self → TheDatom → Bool };

    /// Whether the datom passes.
    fn test(&self, d: &Datom) -> bool
        ensures { result ≡ passes self.now d.now };
}

/// A test whose type is not known, as a guard stores it and shares it with the sessions.
pub type BoxedCheck = Box<dyn Check + Send + Sync>;
