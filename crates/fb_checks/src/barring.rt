//! What checks bar.
ghost use Rattle.std.specs.Prelude.{◌≡◌, IfOk};
ghost use Rattle.tx_after.specs.After.{AreChanges};
ghost use Rattle.fb_checks.specs.Checks.{bars_of, preds_of, needs_of};

use crate::check::Check;
use crate::entities::lacks_any;
use crate::tests::{AttrTest, Need};
use crate::values::fails_any;
use fb_memory::Memory;
use fb_schema::schemas_tell_of_attributes;
use fb_values::Datom;
use fb_view::Snapshot;
use std::alloc::Global;
use tx_refusals::Bar;

/// By what the tests and the needs bar the changes.
pub fn bar_of<T: Check>(
    alloc: Global,
    preds: &[AttrTest<T>],
    needs: &[Need],
    before: &Snapshot,
    changes: &[Datom],
) -> Result<Option<Bar>, Memory>
    requires { AreChanges changes.now }
    ensures { IfOk result (λ bar. bar ≡ bars_of (preds_of T.passes preds.now) (needs_of needs.now)
        before.now.entries changes.now) }
{
    schemas_tell_of_attributes();
    if fails_any(preds, before.schema(), changes) {
        return Ok(Some(Bar::AttrPred));
    }
    if lacks_any(alloc, needs, before, changes)? {
        return Ok(Some(Bar::MissingRequired));
    }
    Ok(None)
}
