//! A list in parts with changes. Parts in which nothing changes are shared.
ghost use Rattle.std.specs.Prelude.{◌≡◌, ◌++◌, ◌≤◌, [], length, IfOk};
ghost use Rattle.std.specs.List.{All};
ghost use Rattle.live_runs.specs.Changed.{HasNoTwins};
ghost use Rattle.live_runs.specs.Changes.{AreChanges, AreMembers, changed_by};
ghost use Rattle.live_runs.specs.Members.{IsMember, changing, held_by, named};
ghost use Rattle.live_runs.specs.Parts.{IsPart, members_in, upto_next};
ghost use Rattle.fb_values.specs.Rising.{IsRising};

use crate::members::{Change, Member, place_among};
use crate::parts::{Part, Parts};
use crate::table::Table;
use crate::weaving::with_changes;
use fb_memory::Memory;
use fb_values::Order;

impl Parts {
    /// The list with the changes.
    pub fn with_changes(
        &self,
        table: &Table,
        order: Order,
        changes: &[Change],
    ) -> Result<Parts, Memory>
        requires single { HasNoTwins table.now }
        requires members { AreMembers order table.now self.now }
        requires changes { AreChanges order table.now changes.now (named table.now self.now) }
        ensures members { IfOk result (λ p. AreMembers order table.now p) }
        ensures datoms { IfOk result (λ p. named table.now p
            ≡ changed_by order table.now changes.now (named table.now self.now)) }
    {
        let mut new = Parts::empty(self.allocator());
        let mut later = self.parts();
        let mut left = changes;
        while let Some((part, rest)) = later.split_first() {
            let (own, others) = left.split_at(upto_next(table, order, rest, left));
            new = new.with_changed(table, order, part, own)?;
            later = rest;
            left = others;
        }
        // Only where there are no parts are any left.
        new.with_woven(table, order, &[], left)
    }

    /// The list with the members of a part behind it, changed.
    fn with_changed(
        self,
        table: &Table,
        order: Order,
        part: &Part,
        changes: &[Change],
    ) -> Result<Parts, Memory>
        requires single { HasNoTwins table.now }
        requires all { All (IsMember order table.now) self }
        requires part { IsPart part.now }
        requires members { AreMembers order table.now (members_in part.now) }
        requires changes { AreChanges order table.now changes.now
            (named table.now (members_in part.now)) }
        ensures all { IfOk result (λ p. All (IsMember order table.now) p) }
        ensures datoms { IfOk result (λ p. named table.now p ≡ named table.now self
            ++ changed_by order table.now changes.now (named table.now (members_in part.now))) }
    {
        if changes.is_empty() {
            self.with(part.share()?)
        } else {
            self.with_woven(table, order, part.members.get(), changes)
        }
    }

    fn with_woven(
        self,
        table: &Table,
        order: Order,
        members: &[Member],
        changes: &[Change],
    ) -> Result<Parts, Memory>
        requires single { HasNoTwins table.now }
        requires all { All (IsMember order table.now) self }
        requires members { AreMembers order table.now members.now }
        requires changes { AreChanges order table.now changes.now (named table.now members.now) }
        ensures all { IfOk result (λ p. All (IsMember order table.now) p) }
        ensures datoms { IfOk result (λ p. named table.now p ≡ named table.now self
            ++ changed_by order table.now changes.now (named table.now members.now)) }
    {
        let woven = with_changes(self.allocator(), table, order, members, changes)?;
        self.with_all(&woven)
    }
}

/// How many of the changes come before the first of the parts, or all.
fn upto_next(table: &Table, order: Order, parts: &[Part], changes: &[Change]) -> usize
    requires changes { All (λ c. IsMember order table.now (changing c)) changes.now }
    requires rising { IsRising order (held_by changing table.now changes.now) }
    requires firsts { All (λ p. IsMember order table.now p.first) parts.now }
    ensures value { result ≡ upto_next order table.now parts.now changes.now }
    ensures within { result ≤ length changes.now }
{
    match parts.split_first() {
        None => changes.len(),
        Some((part, _)) => place_among(table, order, changes, &part.first),
    }
}
