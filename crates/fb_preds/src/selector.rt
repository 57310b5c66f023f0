//! What a filter is.
ghost use Rattle.std.specs.Prelude.{◌↔◌, IsTrue};
ghost use Rattle.fb_values.specs.declared.facts.Datom.{Datom as TheDatom};

use fb_values::Datom;

/// Says of each datom whether it is selected.
pub trait Selector: Drop {
    /// Which datoms are selected.
    ghost selects: { Self → TheDatom → Type 0 };

    /// Whether the datom is selected.
    fn test(&self, d: &Datom) -> bool
        ensures { IsTrue result ↔ selects self.now d.now };
}

/// A filter whose type is not known, as a session stores it and shares it with its readers.
pub type BoxedSelector = Box<dyn Selector + Send + Sync>;
