//! The filter that selects every datom.
use fb_preds::Selector;
use fb_values::Datom;
use tuple_model::Selection;

#[derive(Drop)]
pub(crate) struct Everything;

impl Selector for Everything {
    ghost use Rattle.std.specs.Prelude.{⊤};

    ghost selects = { λ _ d. ⊤ };

    fn test(&self, _d: &Datom) -> bool {
        true
    }
}

impl Selection for Everything {
    ghost use Rattle.std.specs.Prelude.{⊤};

    ghost selects = { λ d. ⊤ };
}
