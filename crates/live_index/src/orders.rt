//! One list for each order, over one table of datoms, and how the lists grow.
ghost use Rattle.std.specs.Prelude.{◌≡◌, ◌↔◌, ◌⊎◌, ◌<◌, ◌≤◌, List, [], drop, length, Contains, IfOk, IsTrue};
ghost use Rattle.fb_values.specs.declared.facts.Datom.{Datom as ModelDatom};
ghost use Rattle.fb_values.specs.declared.indexes.Order.{Order as ModelOrder};
ghost use Rattle.fb_values.specs.declared.indexes.Order.TheVariants.{Eavt};
ghost use Rattle.fb_values.specs.Rising.{IsRising};
ghost use Rattle.fb_values.specs.Lists.{list_in};
ghost use Rattle.live_runs.specs.Members.{datom_of};
ghost use Rattle.live_runs.specs.Runs.{AreRuns, runs_datoms};
ghost use Rattle.live_index.specs.Growth.{HasNoTwins, takes, with_taken};
ghost use Rattle.live_index.specs.Lists.{AreOrders, lists_of, runs_in};

use fb_covers::Covers;
use fb_memory::Memory;
use fb_values::Order;
use live_runs::{Runs, Table};
use std::alloc::Global;

/// The lists of the four orders.
#[derive(Drop)]
pub struct Orders {
    pub eavt: Runs,
    pub aevt: Runs,
    pub avet: Runs,
    pub vaet: Runs,
}

impl Orders {
    /// Takes no memory.
    pub fn empty(alloc: Global) -> Orders
        ensures are { (table : List ModelDatom) → HasNoTwins table → AreOrders table result }
        ensures lists { (table : List ModelDatom) (order : ModelOrder)
            → list_in (lists_of table result) order ≡ [] }
    {
        Orders {
            eavt: Runs::empty(alloc),
            aevt: Runs::empty(alloc),
            avet: Runs::empty(alloc),
            vaet: Runs::empty(alloc),
        }
    }

    pub fn list(&self, order: Order) -> &Runs
        ensures { result.now ≡ runs_in self.now order }
    {
        match order {
            Order::Eavt => &self.eavt,
            Order::Aevt => &self.aevt,
            Order::Avet => &self.avet,
            Order::Vaet => &self.vaet,
        }
    }

    /// The same lists, with room for more.
    pub fn copy(&self) -> Result<Orders, Memory>
        ensures { IfOk result (λ new. new ≡ self.now) }
    {
        Ok(Orders {
            eavt: self.eavt.copy()?,
            aevt: self.aevt.copy()?,
            avet: self.avet.copy()?,
            vaet: self.vaet.copy()?,
        })
    }

    /// The lists with the additions among the table's datoms from a number on, each in the orders that take it.
    pub fn with_additions(
        self,
        table: &Table,
        first: u32,
        covers: &Covers,
    ) -> Result<Orders, Memory>
        requires are { AreOrders table.now self }
        requires within { first ≤ length table.now }
        requires rising { IsRising Eavt (drop first table.now) }
        requires fresh { (order : ModelOrder) (d : ModelDatom) → Contains (drop first table.now) d
            → Contains (list_in (lists_of table.now self) order) d → ⊥ }
        ensures are { IfOk result (λ new. AreOrders table.now new) }
        ensures members { IfOk result (λ new. (order : ModelOrder) (d : ModelDatom)
            → Contains (list_in (lists_of table.now new) order) d
            ↔ (Contains (list_in (lists_of table.now self) order) d
            ⊎ (Contains (drop first table.now) d × IsTrue (takes covers.now order d)))) }
    {
        let mut orders = self;
        let count = count_of(table);
        for number in first..count {
            orders = orders.with_addition(table, number, covers)?;
        }
        Ok(orders)
    }

    /// The lists with a datom of the table, if it is an addition.
    fn with_addition(self, table: &Table, number: u32, covers: &Covers) -> Result<Orders, Memory>
        requires are { AreOrders table.now self }
        requires within { number < length table.now }
        requires fresh { (order : ModelOrder)
            → Contains (list_in (lists_of table.now self) order) (datom_of table.now number) → ⊥ }
        ensures are { IfOk result (λ new. AreOrders table.now new) }
        ensures lists { IfOk result (λ new. (order : ModelOrder)
            → list_in (lists_of table.now new) order ≡ with_taken covers.now order
            (list_in (lists_of table.now self) order) (datom_of table.now number)) }
    {
        let Orders {
            eavt,
            aevt,
            avet,
            vaet,
        } = self;
        Ok(Orders {
            eavt: taken(eavt, table, Order::Eavt, number, covers)?,
            aevt: taken(aevt, table, Order::Aevt, number, covers)?,
            avet: taken(avet, table, Order::Avet, number, covers)?,
            vaet: taken(vaet, table, Order::Vaet, number, covers)?,
        })
    }
}

/// The list with a datom of the table, where the order takes it.
fn taken(
    runs: Runs,
    table: &Table,
    order: Order,
    number: u32,
    covers: &Covers,
) -> Result<Runs, Memory>
    requires runs { AreRuns order table.now runs }
    requires within { number < length table.now }
    requires fresh { Contains (runs_datoms order table.now runs) (datom_of table.now number) → ⊥ }
    ensures runs { IfOk result (λ new. AreRuns order table.now new) }
    ensures datoms { IfOk result (λ new. runs_datoms order table.now new ≡ with_taken covers.now order
        (runs_datoms order table.now runs) (datom_of table.now number)) }
{
    if is_taken(table, order, number, covers) {
        runs.add(table, order, number)
    } else {
        Ok(runs)
    }
}

/// Whether the order takes a datom of the table.
fn is_taken(table: &Table, order: Order, number: u32, covers: &Covers) -> bool
    requires { number < length table.now }
    ensures { result ≡ takes covers.now order (datom_of table.now number) }
{
    let datom = table.at(number);
    datom.added && covers.holds(order, datom.a)
}

/// How many datoms the table has, which is the number of the next one.
pub fn count_of(table: &Table) -> u32
    ensures { result ≡ length table.now }
{
    table.len() as u32
}
