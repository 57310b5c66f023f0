//! What a search goes through: a slice of datoms, each as it is or shared with other owners.
ghost use Rattle.std.specs.Prelude.{◌≡◌};

use fb_chunks::Shared;
use fb_values::Datom;

/// What holds one datom.
pub trait HoldsDatom {
    ghost use Rattle.std.specs.Prelude.{List, map};
    ghost use Rattle.fb_values.specs.declared.facts.Datom.{Datom};

    ghost held: { Self → Datom };

    /// The datoms of a slice, in its order.
    ghost datoms: { List Self → List Datom };

    fn datom(&self) -> &Datom
        ensures { result.now ≡ held self.now };

    ghost one_each: { (holders : List Self) → datoms holders ≡ map held holders };
}

impl HoldsDatom for Datom {
    ghost use Rattle.std.proofs.Common.{sym};
    ghost use Rattle.std.proofs.lemmas.List.{map-id};

    ghost held = { λ d. d };

    ghost datoms = { λ ds. ds };

    ghost one_each = { λ ds. sym (map-id ds) };

    fn datom(&self) -> &Datom {
        self
    }
}

impl HoldsDatom for Shared<Datom> {
    ghost use Rattle.std.proofs.Common.{sym};
    ghost use Rattle.std.proofs.lemmas.List.{map-id};

    ghost held = { λ d. d };

    ghost datoms = { λ ds. ds };

    ghost one_each = { λ ds. sym (map-id ds) };

    fn datom(&self) -> &Datom {
        self.get()
    }
}
