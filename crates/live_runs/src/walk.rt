//! A walk along the datoms of one order.
ghost use Rattle.std.specs.Prelude.{◌≡◌, ◌<◌, ◌≤◌, [], length, true, false};
ghost use Rattle.fb_search.specs.Places.{place_of, probe_of};
ghost use Rattle.live_runs.specs.Changes.{changed_by};
ghost use Rattle.live_runs.specs.Members.{named};
ghost use Rattle.live_runs.specs.Runs.{AreRuns, runs_datoms};
ghost use Rattle.live_runs.specs.Walks.{AreBothLeft, IsAhead, IsFirstOf, IsLeft, IsNumberOf, changes_left, left_of, meets, members_left, upto_change};

use crate::members::{Change, Member, Numbered, cmp_members, place_among};
use crate::parts::Part;
use crate::runs::Runs;
use crate::table::Table;
use crate::waiting::Waiting;
use fb_values::{Datom, Order};
use std::cmp::Ordering;

/// What is left of the datoms.
#[derive(Drop)]
pub struct RunsWalk<'a> {
    table: &'a Table,
    order: Order,
    /// The first of the changes that are left.
    first: Option<&'a Change>,
    /// The others of them.
    waiting: Waiting<'a>,
    /// What is left of the part at hand.
    chunk: &'a [Member],
    /// The parts after it.
    later: &'a [Part],
    /// So many of the members at hand stand before all changes that are left.
    safe: usize,
}

impl Runs {
    /// The walk from the first datom on.
    pub fn walk<'a>(&'a self, table: &'a Table, order: Order) -> RunsWalk<'a>
        requires { AreRuns order table.now self.now }
        ensures left { IsLeft result }
        ensures datoms { left_of result ≡ runs_datoms order table.now self.now }
    {
        RunsWalk::of(
            table,
            order,
            self.newest(),
            self.middle(),
            &[],
            self.parts(),
        )
    }
}

impl<'a> RunsWalk<'a> {
    /// The walk over some members with changes of them, and newer changes of both.
    pub(crate) fn of(
        table: &'a Table,
        order: Order,
        newest: &'a [Change],
        middle: &'a [Change],
        chunk: &'a [Member],
        later: &'a [Part],
    ) -> RunsWalk<'a>
        requires { AreBothLeft order table.now newest.now middle.now chunk.now later.now }
        ensures left { IsLeft result }
        ensures table { result.table.now ≡ table.now }
        ensures datoms { left_of result ≡ changed_by order table.now newest.now
            (changed_by order table.now middle.now
            (named table.now (members_left chunk.now later.now))) }
    {
        let mut waiting = Waiting::of(newest, middle);
        let first = waiting.pop(table, order);
        RunsWalk {
            table,
            order,
            first,
            waiting,
            chunk,
            later,
            safe: 0,
        }
    }

    /// The next datom.
    pub fn next(&mut self) -> Option<&'a Datom>
        requires { IsLeft self.old }
        ensures left { IsLeft self.new }
        ensures first { IsFirstOf (left_of self.old) (left_of self.new) result }
    {
        let number = self.next_number()?;
        Some(self.table.at(number))
    }

    /// The number of the next datom.
    pub(crate) fn next_number(&mut self) -> Option<u32>
        requires { IsLeft self.old }
        ensures left { IsLeft self.new }
        ensures table { self.new.table.now ≡ self.old.table.now }
        ensures first { IsNumberOf self.old.table.now (left_of self.old) (left_of self.new) result }
    {
        self.make_ready();
        if self.safe == 0 {
            self.next_change()
        } else {
            self.next_member()
        }
    }

    /// Where no member is known to stand before all changes, none does then.
    fn make_ready(&mut self)
        requires { IsLeft self.old }
        ensures left { IsLeft self.new }
        ensures table { self.new.table.now ≡ self.old.table.now }
        ensures same { left_of self.new ≡ left_of self.old }
        ensures ahead { self.new.safe ≡ 0 → IsAhead self.new.order self.new.table.now
            (changes_left self.new) (members_left self.new.chunk.now self.new.later.now) }
    {
        if self.safe == 0 {
            self.look();
        }
    }

    /// The first member, where it stands before all changes.
    fn next_member(&mut self) -> Option<u32>
        requires left { IsLeft self.old }
        requires safe { 0 < self.old.safe }
        ensures left { IsLeft self.new }
        ensures table { self.new.table.now ≡ self.old.table.now }
        ensures first { IsNumberOf self.old.table.now (left_of self.old) (left_of self.new) result }
    {
        let (member, rest) = self.chunk.split_first()?;
        self.safe -= 1;
        self.chunk = rest;
        Some(member.number)
    }

    /// What the first change adds, where no member stands before it.
    fn next_change(&mut self) -> Option<u32>
        requires left { IsLeft self.old }
        requires safe { self.old.safe ≡ 0 }
        requires ahead { IsAhead self.old.order self.old.table.now (changes_left self.old)
            (members_left self.old.chunk.now self.old.later.now) }
        ensures left { IsLeft self.new }
        ensures table { self.new.table.now ≡ self.old.table.now }
        ensures first { IsNumberOf self.old.table.now (left_of self.old) (left_of self.new) result }
    {
        let change = self.first?;
        self.first = self.waiting.pop(self.table, self.order);
        Some(change.number)
    }

    /// Passes over what is removed, and finds how many members stand before the first change.
    fn look(&mut self)
        requires left { IsLeft self.old }
        requires safe { self.old.safe ≡ 0 }
        ensures left { IsLeft self.new }
        ensures table { self.new.table.now ≡ self.old.table.now }
        ensures same { left_of self.new ≡ left_of self.old }
        ensures ahead { self.new.safe ≡ 0 → IsAhead self.new.order self.new.table.now
            (changes_left self.new) (members_left self.new.chunk.now self.new.later.now) }
    {
        self.fill();
        while self.meets() {
            self.pass_both();
            self.fill();
        }
        self.count_safe();
    }

    /// Takes the next part to hand, where none is left of the one that was.
    fn fill(&mut self)
        requires left { IsLeft self.old }
        requires safe { self.old.safe ≡ 0 }
        ensures left { IsLeft self.new }
        ensures table { self.new.table.now ≡ self.old.table.now }
        ensures safe { self.new.safe ≡ 0 }
        ensures same { left_of self.new ≡ left_of self.old }
        ensures changes { changes_left self.new ≡ changes_left self.old }
        ensures filled { self.new.chunk.now ≡ [] → self.new.later.now ≡ [] }
    {
        if self.chunk.is_empty() {
            if let Some((part, rest)) = self.later.split_first() {
                self.chunk = part.members.get();
                self.later = rest;
            }
        }
    }

    /// Whether the first change is of the first member's datom.
    fn meets(&self) -> bool
        requires { IsLeft self.now }
        ensures { result ≡ meets self.now.order self.now.table.now (changes_left self.now)
            self.now.chunk.now }
    {
        match (self.first, self.chunk.first()) {
            (Some(change), Some(member)) => {
                cmp_members(self.table, self.order, &change.member(), member) == Ordering::Equal
            }
            _ => false,
        }
    }

    /// Passes over a member and the change that removes it.
    fn pass_both(&mut self)
        requires left { IsLeft self.old }
        requires safe { self.old.safe ≡ 0 }
        requires meets { meets self.old.order self.old.table.now (changes_left self.old)
            self.old.chunk.now ≡ true }
        ensures left { IsLeft self.new }
        ensures table { self.new.table.now ≡ self.old.table.now }
        ensures safe { self.new.safe ≡ 0 }
        ensures same { left_of self.new ≡ left_of self.old }
        ensures fewer { length (changes_left self.new) < length (changes_left self.old) }
    {
        if let Some((_, members)) = self.chunk.split_first() {
            self.first = self.waiting.pop(self.table, self.order);
            self.chunk = members;
        }
    }

    fn count_safe(&mut self)
        requires left { IsLeft self.old }
        requires apart { meets self.old.order self.old.table.now (changes_left self.old)
            self.old.chunk.now ≡ false }
        requires filled { self.old.chunk.now ≡ [] → self.old.later.now ≡ [] }
        ensures left { IsLeft self.new }
        ensures table { self.new.table.now ≡ self.old.table.now }
        ensures same { left_of self.new ≡ left_of self.old }
        ensures ahead { self.new.safe ≡ 0 → IsAhead self.new.order self.new.table.now
            (changes_left self.new) (members_left self.new.chunk.now self.new.later.now) }
    {
        self.safe = self.upto_change();
    }

    /// How many of the members at hand stand before the first change.
    fn upto_change(&self) -> usize
        requires { IsLeft self.now }
        ensures value { result ≡ upto_change self.now.order self.now.table.now
            (changes_left self.now) self.now.chunk.now }
        ensures within { result ≤ length self.now.chunk.now }
    {
        match self.first {
            None => self.chunk.len(),
            Some(change) => place_among(self.table, self.order, self.chunk, &change.member()),
        }
    }
}
