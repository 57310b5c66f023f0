//! Newer and older changes as one list.
ghost use Rattle.std.specs.Prelude.{◌≡◌, ◌++◌, IfOk, OnOk};
ghost use Rattle.std.specs.List.{All};
ghost use Rattle.fb_values.specs.Rising.{IsRising};
ghost use Rattle.live_runs.specs.Members.{IsMember, changing, held_by};
ghost use Rattle.live_runs.specs.Merged.{behind_newer, merged, upto_newer};

use crate::members::{Change, Numbered, is_met, place_among, without_first};
use crate::table::Table;
use fb_memory::Memory;
use fb_values::Order;
use std::alloc::Global;

/// The newer changes among the older ones; where one undoes another, neither is there. What lies between is copied at once.
pub fn merged(
    alloc: Global,
    table: &Table,
    order: Order,
    newer: &[Change],
    older: &[Change],
) -> Result<Vec<Change>, Memory>
    requires newer { All (λ c. IsMember order table.now (changing c)) newer.now }
    requires older { All (λ c. IsMember order table.now (changing c)) older.now }
    requires rising { IsRising order (held_by changing table.now older.now) }
    ensures { IfOk result (λ all. all.items ≡ merged order table.now newer.now older.now) }
{
    let mut all = Vec::with_capacity(alloc, newer.len().saturating_add(older.len()))?;
    let mut left = older;
    for change in newer {
        left = taken_over(&mut all, table, order, left, change)?;
    }
    all.extend_from_slice(left)?;
    Ok(all)
}

/// Adds the older changes before a newer one, and that one unless it undoes the next of them. Returns what is left.
fn taken_over<'a>(
    all: &mut Vec<Change>,
    table: &Table,
    order: Order,
    left: &'a [Change],
    change: &Change,
) -> Result<&'a [Change], Memory>
    requires left { All (λ c. IsMember order table.now (changing c)) left.now }
    requires rising { IsRising order (held_by changing table.now left.now) }
    requires member { IsMember order table.now (changing change.now) }
    ensures all { OnOk result (all.new.items
        ≡ all.old.items ++ upto_newer order table.now change.now left.now) }
    ensures left { IfOk result
        (λ rest. rest.now ≡ behind_newer order table.now change.now left.now) }
{
    let member = change.member();
    let (before, behind) = left.split_at(place_among(table, order, left, &member));
    all.extend_from_slice(before)?;
    if is_met(table, order, behind, 0, &member) {
        Ok(without_first(behind))
    } else {
        all.push(*change)?;
        Ok(behind)
    }
}
