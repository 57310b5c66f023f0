//! What lists of names bar.
ghost use Rattle.std.specs.Prelude.{◌≡◌, IfOk};
ghost use Rattle.std.specs.List.{list_any};
ghost use Rattle.tx_after.specs.After.{AreChanges};
ghost use Rattle.tuple_model.specs.UniqueTuples.{bars_list as model_bars_list, bars_unique};
ghost use Rattle.fb_tuple_guard.specs.Sharing.{lists_in};

use crate::named::composite_named;
use crate::sharing::are_shared;
use crate::tuples::Tuples;
use crate::unique::Names;
use fb_memory::Memory;
use fb_text::Text;
use fb_values::Datom;
use fb_view::Snapshot;
use std::alloc::Global;
use tx_refusals::Bar;

/// By what the composites bar the changes.
pub fn bar_of(
    alloc: Global,
    lists: &[Names],
    before: &Snapshot,
    changes: &[Datom],
) -> Result<Option<Bar>, Memory>
    requires { AreChanges changes.now }
    ensures { IfOk result (λ bar. bar
        ≡ bars_unique (lists_in lists.now) before.now.entries changes.now) }
{
    if bars_any(alloc, lists, before, changes)? {
        return Ok(Some(Bar::UniqueTuple));
    }
    Ok(None)
}

fn bars_any(
    alloc: Global,
    lists: &[Names],
    before: &Snapshot,
    changes: &[Datom],
) -> Result<bool, Memory>
    requires { AreChanges changes.now }
    ensures { IfOk result (λ b. b
        ≡ list_any (model_bars_list before.now.entries changes.now) (lists_in lists.now)) }
{
    for names in lists {
        if bars_list(alloc, &names.items, before, changes)? {
            return Ok(true);
        }
    }
    Ok(false)
}

fn bars_list(
    alloc: Global,
    names: &[Text],
    before: &Snapshot,
    changes: &[Datom],
) -> Result<bool, Memory>
    requires { AreChanges changes.now }
    ensures { IfOk result (λ b. b ≡ model_bars_list before.now.entries changes.now names.now) }
{
    match composite_named(alloc, before.schema(), names)? {
        Some(attrs) => are_shared(&Tuples {
            alloc,
            before,
            changes,
            attrs: &attrs,
        }),
        None => Ok(false),
    }
}
