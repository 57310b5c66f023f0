//! Sorted members with changes.
ghost use Rattle.std.specs.Prelude.{◌≡◌, ◌++◌, IfOk, OnOk};
ghost use Rattle.live_runs.specs.Changed.{HasNoTwins};
ghost use Rattle.live_runs.specs.Changes.{AreChanges, AreMembers, behind, changed_by, taken};
ghost use Rattle.live_runs.specs.Members.{IsMember, changing, named};

use crate::members::{Change, Member, Numbered, place_among, without_first};
use crate::table::Table;
use fb_memory::Memory;
use fb_values::Order;
use std::alloc::Global;

/// The members with the changes. What lies between two changes is copied at once.
pub fn with_changes(
    alloc: Global,
    table: &Table,
    order: Order,
    members: &[Member],
    changes: &[Change],
) -> Result<Vec<Member>, Memory>
    requires single { HasNoTwins table.now }
    requires members { AreMembers order table.now members.now }
    requires changes { AreChanges order table.now changes.now (named table.now members.now) }
    ensures members { IfOk result (λ all. AreMembers order table.now all.items) }
    ensures datoms { IfOk result (λ all. named table.now all.items
        ≡ changed_by order table.now changes.now (named table.now members.now)) }
{
    let mut all = Vec::with_capacity(alloc, members.len().saturating_add(changes.len()))?;
    let mut left = members;
    for change in changes {
        left = taken_over(&mut all, table, order, left, change)?;
    }
    all.extend_from_slice(left)?;
    Ok(all)
}

/// Adds the members before a change, and what the change adds. Returns what is left behind the change.
fn taken_over<'a>(
    all: &mut Vec<Member>,
    table: &Table,
    order: Order,
    left: &'a [Member],
    change: &Change,
) -> Result<&'a [Member], Memory>
    requires left { AreMembers order table.now left.now }
    requires member { IsMember order table.now (changing change.now) }
    ensures all { OnOk result (all.new.items ≡ all.old.items
        ++ taken order table.now change.now left.now change.now.removes) }
    ensures left { IfOk result
        (λ rest. rest.now ≡ behind order table.now change.now left.now change.now.removes) }
{
    let member = change.member();
    let (before, behind) = left.split_at(place_among(table, order, left, &member));
    all.extend_from_slice(before)?;
    if change.removes {
        Ok(without_first(behind))
    } else {
        all.push(member)?;
        Ok(behind)
    }
}
