//! An index of the first entries of a history, which is asked and is not made.
ghost use Rattle.std.specs.Prelude.{◌≡◌, ◌↔◌, count_by, Contains, IsTrue, IfOk};
ghost use Rattle.std.specs.Option.{option_copied};
ghost use Rattle.fb_covers.specs.Coverage.{covers as held};
ghost use Rattle.fb_model.specs.History.{said};
ghost use Rattle.view_model.specs.Stands.{IsIndexed};
ghost use Rattle.log_model.specs.Kept.{index_len};
ghost use Rattle.seg_tree.specs.Nodes.{tree_datoms};
ghost use Rattle.seg_agree.specs.Indexes.{is_below_next};

use crate::among::is_among;
use crate::totals::sum;
use crate::walks::{has_len, start};
use fb_covers::Covers;
use fb_history::EntryList;
use fb_memory::Memory;
use fb_values::{Datom, Order, cmp_in};
use log_model::a_counted_list_is_the_index;
use seg_tree::Tree;
use std::cmp::Ordering;

/// The index of an order of the entries of a history up to entry `c`.
#[derive(Clone, Copy)]
pub(crate) struct Index<'a> {
    pub(crate) entries: &'a EntryList,
    pub(crate) c: u32,
    pub(crate) order: Order,
    /// The coverage after entry `c`, as far as it concerns this order.
    pub(crate) covers: &'a Covers,
}

impl Index<'_> {
    ghost use Rattle.seg_agree.specs.Indexes.{IsOfHistory, IsIndexOf, IsPartOf, past};

    /// Whether it is this tree. It has so many datoms.
    pub(crate) fn is(&self, tree: &Tree, len: u64) -> bool
        requires history { IsOfHistory self.now }
        requires len { len ≡ index_len (past self.now) self.now.order }
        ensures { IsTrue result ↔ IsIndexOf (past self.now) self.now.order (tree_datoms tree.now) }
    {
        a_counted_list_is_the_index();
        has_len(tree, len) && self.has_all(tree)
    }

    /// How many datoms it has.
    pub(crate) fn len(&self) -> Result<u64, Memory>
        requires { IsOfHistory self.now }
        ensures { IfOk result (λ len. len ≡ index_len (past self.now) self.now.order) }
    {
        // So c + 1 is a t.
        let _len = self.entries.len();
        let mut len = 0;
        for t in 0..self.c + 1 {
            let datoms = self.entries.at(t).datoms.as_slice();
            len = sum(len, self.held_of(datoms))?;
        }
        Ok(len)
    }

    /// How many of the datoms are of attributes that it holds.
    fn held_of(&self, datoms: &[Datom]) -> usize
        ensures { result ≡ count_by (λ d. held self.now.covers.now self.now.order d.a) datoms.now }
    {
        let (order, covers) = (self.order, self.covers);
        datoms.iter().filter(|d| covers.holds(order, d.a)).count()
    }

    /// Whether the tree's list rises, and each datom of it is in the index.
    fn has_all(&self, tree: &Tree) -> bool
        requires { IsOfHistory self.now }
        ensures { IsTrue result ↔ IsPartOf (past self.now) self.now.order (tree_datoms tree.now) }
    {
        let mut place = start(tree);
        while let Some(d) = tree.at(place) {
            let next = tree.next(place);
            let ahead = tree.at(next);
            if !self.goes_on(d, ahead) {
                return false;
            }
            place = next;
        }
        true
    }

    /// Whether it has the datom, and the next one, if there is a next one, follows it.
    fn goes_on(&self, d: &Datom, next: Option<&Datom>) -> bool
        requires { IsOfHistory self.now }
        ensures { IsTrue result ↔ (IsIndexed (past self.now) self.now.order d.now
            × IsTrue (is_below_next self.now.order d.now (option_copied next.entry))) }
    {
        is_before(self.order, d, next) && self.has(d)
    }

    /// Whether it has the datom.
    fn has(&self, d: &Datom) -> bool
        requires { IsOfHistory self.now }
        ensures { IsTrue result ↔ IsIndexed (past self.now) self.now.order d.now }
    {
        self.covers.holds(self.order, d.a) && self.says(d)
    }

    /// Whether one of the entries has the datom.
    fn says(&self, d: &Datom) -> bool
        requires { IsOfHistory self.now }
        ensures { IsTrue result ↔ Contains (said (past self.now)) d.now }
    {
        d.t <= self.c && is_among(self.entries.at(d.t).datoms.as_slice(), d)
    }
}

/// Whether the datom is below the next one, if there is a next one.
fn is_before(order: Order, d: &Datom, next: Option<&Datom>) -> bool
    ensures { result ≡ is_below_next order d.now (option_copied next.entry) }
{
    match next {
        None => true,
        Some(next) => cmp_in(order, d, next) == Ordering::Less,
    }
}
