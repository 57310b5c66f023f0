//! A table of filters, to those who pick filters from it by their names.
ghost use Rattle.std.specs.Prelude.{◌≡◌, ℕ, ◌↔◌, List, Option, IsTrue, IfSome};
ghost use Rattle.fb_values.specs.declared.facts.Datom.{Datom as TheDatom};
ghost use Rattle.fb_preds.specs.Naming.{IsFound};

use fb_text::Text;
use fb_values::Datom;

/// Filters by name, each at a place.
pub trait FilterTable: Drop {
    /// The place that a name finds.
    ghost place_of: { Self → List ℕ → Option ℕ };

    /// The name at a place.
    ghost name_at: { Self → ℕ → List ℕ };

    /// What the filter at a place selects.
    ghost selects_at: { Self → ℕ → TheDatom → Type 0 };

    /// The place that the name finds.
    fn place(&self, name: &Text) -> Option<usize>
        ensures place { result ≡ place_of self.now name.now }
        ensures name { IfSome result (λ place. name_at self.now place ≡ name.now) };

    /// Whether the filter at the place selects the datom.
    fn select(&self, place: usize, d: &Datom) -> bool
        requires { IsFound (place_of self.now) (name_at self.now) place }
        ensures { IsTrue result ↔ selects_at self.now place d.now };
}
