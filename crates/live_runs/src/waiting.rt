//! Changes that wait: newer ones and older ones, read as one list.
ghost use Rattle.std.specs.Prelude.{◌≡◌, drop};
ghost use Rattle.std.specs.List.{slice_get};
ghost use Rattle.std.specs.Option.{option_copied};
ghost use Rattle.live_runs.specs.Merged.{AreNamed, first_and, heads_meet, is_newer_first, waiting_in};

use crate::members::{Change, Numbered, cmp_members, without_first};
use crate::table::Table;
use fb_values::Order;
use std::cmp::Ordering;

/// Changes in two lists, of which the newer ones follow the older ones. One that is undone is not among them.
#[derive(Drop)]
pub struct Waiting<'a> {
    newer: &'a [Change],
    older: &'a [Change],
}

impl<'a> Waiting<'a> {
    pub fn of(newer: &'a [Change], older: &'a [Change]) -> Waiting<'a>
        ensures newer { result.newer.now ≡ newer.now }
        ensures older { result.older.now ≡ older.now }
    {
        Waiting { newer, older }
    }

    /// Takes the first change out.
    pub fn pop(&mut self, table: &Table, order: Order) -> Option<&'a Change>
        requires { AreNamed order table.now self.old }
        ensures named { AreNamed order table.now self.new }
        ensures first { waiting_in order table.now self.old
            ≡ first_and result (waiting_in order table.now self.new) }
    {
        while self.heads_meet(table, order) {
            self.pass_heads();
        }
        if self.is_newer_first(table, order) {
            self.pop_newer()
        } else {
            self.pop_older()
        }
    }

    fn pop_newer(&mut self) -> Option<&'a Change>
        ensures first { option_copied result ≡ slice_get self.old.newer.now 0 }
        ensures newer { self.new.newer.now ≡ drop 1 self.old.newer.now }
        ensures older { self.new.older.now ≡ self.old.older.now }
    {
        let first = self.newer.first();
        self.newer = without_first(self.newer);
        first
    }

    fn pop_older(&mut self) -> Option<&'a Change>
        ensures first { option_copied result ≡ slice_get self.old.older.now 0 }
        ensures newer { self.new.newer.now ≡ self.old.newer.now }
        ensures older { self.new.older.now ≡ drop 1 self.old.older.now }
    {
        let first = self.older.first();
        self.older = without_first(self.older);
        first
    }

    /// Passes over the first ones of both lists.
    fn pass_heads(&mut self)
        ensures newer { self.new.newer.now ≡ drop 1 self.old.newer.now }
        ensures older { self.new.older.now ≡ drop 1 self.old.older.now }
    {
        self.newer = without_first(self.newer);
        self.older = without_first(self.older);
    }

    /// Whether the first ones of both lists are of one datom, so that neither counts.
    fn heads_meet(&self, table: &Table, order: Order) -> bool
        requires { AreNamed order table.now self.now }
        ensures { result ≡ heads_meet order table.now self.now.newer.now self.now.older.now }
    {
        match (self.newer.first(), self.older.first()) {
            (Some(newer), Some(older)) => {
                cmp_members(table, order, &older.member(), &newer.member()) == Ordering::Equal
            }
            _ => false,
        }
    }

    fn is_newer_first(&self, table: &Table, order: Order) -> bool
        requires { AreNamed order table.now self.now }
        ensures { result ≡ is_newer_first order table.now self.now.newer.now self.now.older.now }
    {
        match (self.newer.first(), self.older.first()) {
            (Some(newer), Some(older)) => {
                cmp_members(table, order, &older.member(), &newer.member()) == Ordering::Greater
            }
            (newer, _) => newer.is_some(),
        }
    }
}
