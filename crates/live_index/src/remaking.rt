//! A live index with other attributes in its orders, or with many datoms more: its table and its lists are made anew.
ghost use Rattle.std.specs.Prelude.{◌≡◌, ◌++◌, filter, IfOk, IsTrue, true};
ghost use Rattle.fb_values.specs.declared.indexes.Order.{Order as ModelOrder};
ghost use Rattle.fb_values.specs.declared.indexes.Order.TheVariants.{Eavt};
ghost use Rattle.fb_values.specs.Lists.{list_in};
ghost use Rattle.fb_model.specs.Facts.{standing};
ghost use Rattle.fb_model.specs.Rising.{in_order as model_in_order};
ghost use Rattle.live_index.specs.Gathered.{IsSame, own_span};
ghost use Rattle.live_index.specs.Growth.{HasNoTwins, is_held};
ghost use Rattle.live_index.specs.Halves.{withdrawn};
ghost use Rattle.live_index.specs.Lists.{AreOrders, IsLastOf, lists_of};
ghost use Rattle.live_index.specs.Ranks.{IsSpan, span_of};

use crate::gathering::Gathered;
use crate::retracting::{Both, both_of};
use crate::splitting::halves_of;
use fb_covers::Covers;
use fb_memory::Memory;
use fb_values::{Datom, Order};
use std::alloc::Global;

/// Whether no datom comes, and each attribute stays in the indexes that hold it.
pub fn are_same(before: &Covers, after: &Covers, datoms: &[Datom], refill: &[Datom]) -> bool
    ensures { result ≡ true → IsSame before.now after.now datoms.now refill.now }
{
    if !datoms.is_empty() {
        return false;
    }
    if !refill.is_empty() {
        return false;
    }
    if !before.stays_in(after, Order::Avet) {
        return false;
    }
    before.stays_in(after, Order::Vaet)
}

/// The halves of the lists of all orders, and the number of the last datom in EAVT.
#[derive(Drop)]
pub struct Made {
    pub both: Both,
    pub last: Option<u32>,
}

impl Gathered {
    /// The halves of the lists of all orders.
    pub fn split(&self, alloc: Global, covers: &Covers) -> Result<Made, Memory>
        requires single { HasNoTwins self.now.table }
        requires own { (order : ModelOrder) → IsSpan self.now.table (own_span self.now order) }
        requires coming { IsSpan self.now.table self.now.coming }
        ensures holding { IfOk result (λ made. AreOrders self.now.table made.both.holding) }
        ensures past { IfOk result (λ made. AreOrders self.now.table made.both.past) }
        ensures stands { IfOk result (λ made. (order : ModelOrder)
            → list_in (lists_of self.now.table made.both.holding) order
            ≡ standing (model_in_order order
            (filter (is_held covers.now order) (span_of self.now.table (own_span self.now order))
            ++ filter (is_held covers.now order) (span_of self.now.table self.now.coming)))) }
        ensures falls { IfOk result (λ made. (order : ModelOrder)
            → list_in (lists_of self.now.table made.both.past) order
            ≡ withdrawn (model_in_order order
            (filter (is_held covers.now order) (span_of self.now.table (own_span self.now order))
            ++ filter (is_held covers.now order) (span_of self.now.table self.now.coming)))) }
        ensures last { IfOk result (λ made. IsLastOf self.now.table
            (model_in_order Eavt
            (filter (is_held covers.now Eavt) (span_of self.now.table self.now.eavt)
            ++ filter (is_held covers.now Eavt) (span_of self.now.table self.now.coming))) made.last) }
    {
        let (table, coming) = (&self.table, self.coming);
        let eavt = halves_of(alloc, table, Order::Eavt, self.eavt, coming, covers)?;
        let aevt = halves_of(alloc, table, Order::Aevt, self.aevt, coming, covers)?;
        let avet = halves_of(alloc, table, Order::Avet, self.avet, coming, covers)?;
        let vaet = halves_of(alloc, table, Order::Vaet, self.vaet, coming, covers)?;
        let last = eavt.last;
        let both = both_of(eavt.pair, aevt.pair, avet.pair, vaet.pair);
        Ok(Made { both, last })
    }
}
