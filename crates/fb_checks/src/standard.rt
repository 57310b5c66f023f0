//! The checks that the program comes with.
ghost use Rattle.std.specs.Prelude.{◌≡◌, IfOk};
ghost use Rattle.fb_checks.specs.Shipped.{shipped_tests, shipped_needs, shipped_guard};

use crate::checks::Checks;
use crate::tests::{AttrTest, Need, Test};
use fb_memory::Memory;
use fb_text::Text;
use fb_view::Snapshot;
use std::alloc::Global;
use tx_step::Guard;

/// A text that is added to document something is not empty, and who has an address is documented.
pub fn shipped(alloc: Global) -> Result<Checks, Memory>
    ensures preds { IfOk result (λ checks. checks.preds.items ≡ shipped_tests) }
    ensures needs { IfOk result (λ checks. checks.needs.items ≡ shipped_needs) }
    ensures guard { IfOk result
        (λ checks. ⟦<Checks as Guard<Snapshot>>⟧.bars checks ≡ shipped_guard) }
{
    let not_empty = AttrTest {
        attr: Text::of(alloc, "db/doc")?,
        test: Test::NotEmpty,
    };
    let documented = Need {
        marker: Text::of(alloc, "person/email")?,
        needed: Text::of(alloc, "db/doc")?,
    };
    Ok(Checks {
        alloc,
        preds: vec![in alloc; not_empty]?,
        needs: vec![in alloc; documented]?,
    })
}
