//! The retractions of an entry, in all orders. What a retraction ends goes from what holds to the past, and so does it.
ghost use Rattle.std.specs.Prelude.{◌≡◌, true, false, not, ◌<◌, ◌≤◌, ◌∷◌, List, [], drop, length, Contains, IfOk};
ghost use Rattle.std.specs.List.{list_any};
ghost use Rattle.fb_values.specs.declared.facts.Datom.{Datom as ModelDatom};
ghost use Rattle.fb_values.specs.declared.indexes.Order.{Order as ModelOrder};
ghost use Rattle.fb_values.specs.declared.indexes.Order.TheVariants.{Eavt};
ghost use Rattle.fb_values.specs.Rising.{IsRising};
ghost use Rattle.fb_values.specs.Lists.{list_in};
ghost use Rattle.fb_covers.specs.Coverage.{Coverage};
ghost use Rattle.live_runs.specs.Members.{datom_of};
ghost use Rattle.live_runs.specs.Runs.{AreRuns, runs_datoms};
ghost use Rattle.fb_model.specs.Rising.{put_in_order};
ghost use Rattle.live_runs.specs.Changed.{without};
ghost use Rattle.live_index.specs.Growth.{HasNoTwins};
ghost use Rattle.live_index.specs.Ending.{IsEnded, IsRetracted, MayEnd, MayEndAll, withdraws};
ghost use Rattle.live_index.specs.Lists.{AreIf, AreOrders, lists_if, lists_of};

use crate::orders::{Orders, count_of};
use fb_chunks::{Share, Shared};
use fb_covers::Covers;
use fb_memory::Memory;
use fb_values::Order;
use live_runs::{Runs, Table};
use std::alloc::Global;

/// What holds, and the other live datoms, if there are any.
#[derive(Drop)]
pub struct Halves {
    pub holding: Orders,
    pub past: Option<Shared<Orders>>,
}

impl Halves {
    /// The same lists, to be changed. The past is shared.
    pub fn copied(holding: &Orders, past: &Option<Shared<Orders>>) -> Result<Halves, Memory>
        ensures holding { IfOk result (λ new. new.holding ≡ holding.now) }
        ensures past { IfOk result (λ new. new.past ≡ past.now) }
    {
        Ok(Halves {
            holding: holding.copy()?,
            past: share(past)?,
        })
    }

    /// The lists with the retractions among the table's datoms from a number on. Without any the past stays shared.
    pub fn retracted(
        self,
        alloc: Global,
        table: &Table,
        first: u32,
        covers: &Covers,
    ) -> Result<Halves, Memory>
        requires single { HasNoTwins table.now }
        requires holding { AreOrders table.now self.holding }
        requires past { AreIf table.now self.past }
        requires within { first ≤ length table.now }
        requires rising { IsRising Eavt (drop first table.now) }
        requires may { (order : ModelOrder)
            → MayEndAll (list_in (lists_of table.now self.holding) order)
            (list_in (lists_if table.now self.past) order) (drop first table.now) }
        ensures holding { IfOk result (λ new. AreOrders table.now new.holding) }
        ensures past { IfOk result (λ new. AreIf table.now new.past) }
        ensures retracted { IfOk result (λ new. (order : ModelOrder)
            → IsRetracted order covers.now (list_in (lists_of table.now self.holding) order)
            (list_in (lists_if table.now self.past) order) (drop first table.now)
            (list_in (lists_of table.now new.holding) order)
            (list_in (lists_if table.now new.past) order)) }
    {
        if !has_retraction(table, first) {
            return Ok(self);
        }
        let Halves { holding, past } = self;
        let past = copied(alloc, &past)?;
        let both = Both { holding, past };
        let Both { holding, past } = both.retracted(table, first, covers)?;
        Ok(Halves {
            holding,
            past: Some(Shared::new(alloc, past)?),
        })
    }
}

/// Whether the table has a retraction from a number on.
fn has_retraction(table: &Table, first: u32) -> bool
    requires { first ≤ length table.now }
    ensures { result ≡ list_any (λ d. not d.added) (drop first table.now) }
{
    let count = count_of(table);
    for number in first..count {
        if !adds(table, number) {
            return true;
        }
    }
    false
}

fn adds(table: &Table, number: u32) -> bool
    requires { number < length table.now }
    ensures { result ≡ (datom_of table.now number).added }
{
    table.at(number).added
}

pub fn share(past: &Option<Shared<Orders>>) -> Result<Option<Shared<Orders>>, Memory>
    ensures { IfOk result (λ copy. copy ≡ past.now) }
{
    match past {
        None => Ok(None),
        Some(past) => Ok(Some(past.share()?)),
    }
}

/// The lists of the past, to be changed.
fn copied(alloc: Global, past: &Option<Shared<Orders>>) -> Result<Orders, Memory>
    ensures are { IfOk result (λ copy. (table : List ModelDatom) → HasNoTwins table
        → AreIf table past.now → AreOrders table copy) }
    ensures lists { IfOk result (λ copy. (table : List ModelDatom) (order : ModelOrder)
        → list_in (lists_of table copy) order ≡ list_in (lists_if table past.now) order) }
{
    match past {
        None => Ok(Orders::empty(alloc)),
        Some(past) => past.get().copy(),
    }
}

/// What holds, and the other live datoms.
#[derive(Drop)]
pub struct Both {
    pub holding: Orders,
    pub past: Orders,
}

impl Both {
    fn retracted(self, table: &Table, first: u32, covers: &Covers) -> Result<Both, Memory>
        requires holding { AreOrders table.now self.holding }
        requires past { AreOrders table.now self.past }
        requires within { first ≤ length table.now }
        requires rising { IsRising Eavt (drop first table.now) }
        requires may { (order : ModelOrder)
            → MayEndAll (list_in (lists_of table.now self.holding) order)
            (list_in (lists_of table.now self.past) order) (drop first table.now) }
        ensures holding { IfOk result (λ new. AreOrders table.now new.holding) }
        ensures past { IfOk result (λ new. AreOrders table.now new.past) }
        ensures retracted { IfOk result (λ new. (order : ModelOrder)
            → IsRetracted order covers.now (list_in (lists_of table.now self.holding) order)
            (list_in (lists_of table.now self.past) order) (drop first table.now)
            (list_in (lists_of table.now new.holding) order)
            (list_in (lists_of table.now new.past) order)) }
    {
        let mut both = self;
        let count = count_of(table);
        for number in first..count {
            both = both.with_change(table, number, covers)?;
        }
        Ok(both)
    }

    /// The lists with a datom of the table, if it is a retraction.
    fn with_change(self, table: &Table, number: u32, covers: &Covers) -> Result<Both, Memory>
        requires holding { AreOrders table.now self.holding }
        requires past { AreOrders table.now self.past }
        requires within { number < length table.now }
        requires may { (order : ModelOrder)
            → MayEnd (list_in (lists_of table.now self.holding) order)
            (list_in (lists_of table.now self.past) order) (datom_of table.now number) }
        ensures holding { IfOk result (λ new. AreOrders table.now new.holding) }
        ensures past { IfOk result (λ new. AreOrders table.now new.past) }
        ensures retracted { IfOk result (λ new. (order : ModelOrder)
            → IsRetracted order covers.now (list_in (lists_of table.now self.holding) order)
            (list_in (lists_of table.now self.past) order) (datom_of table.now number ∷ [])
            (list_in (lists_of table.now new.holding) order)
            (list_in (lists_of table.now new.past) order)) }
    {
        let Both { holding, past } = self;
        let eavt = Pair {
            holding: holding.eavt,
            past: past.eavt,
        };
        let eavt = eavt.with_change(table, Order::Eavt, number, covers)?;
        let aevt = Pair {
            holding: holding.aevt,
            past: past.aevt,
        };
        let aevt = aevt.with_change(table, Order::Aevt, number, covers)?;
        let avet = Pair {
            holding: holding.avet,
            past: past.avet,
        };
        let avet = avet.with_change(table, Order::Avet, number, covers)?;
        let vaet = Pair {
            holding: holding.vaet,
            past: past.vaet,
        };
        let vaet = vaet.with_change(table, Order::Vaet, number, covers)?;
        Ok(both_of(eavt, aevt, avet, vaet))
    }
}

pub fn both_of(eavt: Pair, aevt: Pair, avet: Pair, vaet: Pair) -> Both
    ensures holding { result.holding ≡ record {
      eavt = eavt.holding;
      aevt = aevt.holding;
      avet = avet.holding;
      vaet = vaet.holding;
    } }
    ensures past { result.past ≡ record {
      eavt = eavt.past;
      aevt = aevt.past;
      avet = avet.past;
      vaet = vaet.past;
    } }
{
    Both {
        holding: Orders {
            eavt: eavt.holding,
            aevt: aevt.holding,
            avet: avet.holding,
            vaet: vaet.holding,
        },
        past: Orders {
            eavt: eavt.past,
            aevt: aevt.past,
            avet: avet.past,
            vaet: vaet.past,
        },
    }
}

/// What holds in one order, and what does not.
#[derive(Drop)]
pub struct Pair {
    pub holding: Runs,
    pub past: Runs,
}

impl Pair {
    /// The lists with a datom of the table, if it is a retraction that the order's index holds.
    fn with_change(
        self,
        table: &Table,
        order: Order,
        number: u32,
        covers: &Covers,
    ) -> Result<Pair, Memory>
        requires holding { AreRuns order table.now self.holding }
        requires past { AreRuns order table.now self.past }
        requires within { number < length table.now }
        requires may { MayEnd (runs_datoms order table.now self.holding)
            (runs_datoms order table.now self.past) (datom_of table.now number) }
        ensures holding { IfOk result (λ new. AreRuns order table.now new.holding) }
        ensures past { IfOk result (λ new. AreRuns order table.now new.past) }
        ensures retracted { IfOk result (λ new. IsRetracted order covers.now
            (runs_datoms order table.now self.holding) (runs_datoms order table.now self.past)
            (datom_of table.now number ∷ []) (runs_datoms order table.now new.holding)
            (runs_datoms order table.now new.past)) }
    {
        if is_withdrawn(table, order, number, covers) {
            self.with_retraction(table, order, number)
        } else {
            Ok(self)
        }
    }

    fn with_retraction(self, table: &Table, order: Order, number: u32) -> Result<Pair, Memory>
        requires holding { AreRuns order table.now self.holding }
        requires past { AreRuns order table.now self.past }
        requires within { number < length table.now }
        requires may { MayEnd (runs_datoms order table.now self.holding)
            (runs_datoms order table.now self.past) (datom_of table.now number) }
        ensures holding { IfOk result (λ new. AreRuns order table.now new.holding) }
        ensures past { IfOk result (λ new. AreRuns order table.now new.past) }
        ensures retracted { IfOk result (λ new. (coverage : Coverage)
            → withdraws coverage order (datom_of table.now number) ≡ true
            → IsRetracted order coverage (runs_datoms order table.now self.holding)
            (runs_datoms order table.now self.past) (datom_of table.now number ∷ [])
            (runs_datoms order table.now new.holding) (runs_datoms order table.now new.past)) }
    {
        let Pair { holding, past } = self.ended(table, order, number)?;
        let past = past.add(table, order, number)?;
        Ok(Pair { holding, past })
    }

    /// The lists where the fact that a datom ends, if there is one, holds no longer.
    fn ended(self, table: &Table, order: Order, number: u32) -> Result<Pair, Memory>
        requires holding { AreRuns order table.now self.holding }
        requires past { AreRuns order table.now self.past }
        requires within { number < length table.now }
        requires may { MayEnd (runs_datoms order table.now self.holding)
            (runs_datoms order table.now self.past) (datom_of table.now number) }
        ensures holding { IfOk result (λ new. AreRuns order table.now new.holding) }
        ensures past { IfOk result (λ new. AreRuns order table.now new.past) }
        ensures ended { IfOk result (λ new. IsEnded (datom_of table.now number)
            (runs_datoms order table.now self.holding) (runs_datoms order table.now self.past)
            (runs_datoms order table.now new.holding) (runs_datoms order table.now new.past)) }
    {
        match self.holding.mate(table, order, table.at(number)) {
            None => Ok(self),
            Some(fact) => self.moved(table, order, fact),
        }
    }

    /// The lists where one of the facts that hold does so no longer.
    fn moved(self, table: &Table, order: Order, fact: u32) -> Result<Pair, Memory>
        requires holding { AreRuns order table.now self.holding }
        requires past { AreRuns order table.now self.past }
        requires within { fact < length table.now }
        requires there { Contains (runs_datoms order table.now self.holding)
            (datom_of table.now fact) }
        requires fresh { Contains (runs_datoms order table.now self.past) (datom_of table.now fact)
            → ⊥ }
        ensures holding { IfOk result (λ new. AreRuns order table.now new.holding) }
        ensures past { IfOk result (λ new. AreRuns order table.now new.past) }
        ensures without { IfOk result (λ new. runs_datoms order table.now new.holding
            ≡ without order (datom_of table.now fact) (runs_datoms order table.now self.holding)) }
        ensures with { IfOk result (λ new. runs_datoms order table.now new.past
            ≡ put_in_order order (datom_of table.now fact) (runs_datoms order table.now self.past)) }
    {
        let Pair { holding, past } = self;
        let holding = holding.remove(table, order, fact)?;
        let past = past.add(table, order, fact)?;
        Ok(Pair { holding, past })
    }
}

/// Whether a datom of the table is a retraction that the order's index holds.
fn is_withdrawn(table: &Table, order: Order, number: u32, covers: &Covers) -> bool
    requires { number < length table.now }
    ensures { result ≡ withdraws covers.now order (datom_of table.now number) }
{
    let datom = table.at(number);
    !datom.added && covers.holds(order, datom.a)
}
