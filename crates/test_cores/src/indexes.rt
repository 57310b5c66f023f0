//! The four indexes of a history, as the plain program has them and as a core has them.
use anyhow::{Result, bail};
use fb_db::Db;
use fb_memory::Memory;
use fb_numbers::{CARDINALITY, IDENT};
use fb_preds::Selector;
use fb_scan::{Bounds, first, index_range, next_attribute, seek};
use fb_values::{Datom, Entry, Order, Probe, Value};
use fb_view::Snapshot;
use plain_reads::{Range, Window, scan};
use std::alloc::Global;

const ORDERS: &[Order] = &[Order::Eavt, Order::Aevt, Order::Avet, Order::Vaet];

/// The attribute of a number that gains an index and loses it.
const AGE: u64 = 17_592_186_044_417;

/// All that the indexes hold, also what was retracted; and which entities have an age of 5.
#[derive(Drop)]
pub(crate) struct Indexes {
    lists: Vec<Vec<Datom>>,
    aged_five: Vec<Datom>,
}

impl Indexes {
    /// By the definitions.
    pub(crate) fn of(alloc: Global, entries: &[Entry]) -> Result<Indexes> {
        Ok(Indexes {
            aged_five: aged_five(alloc, entries)?,
            lists: whole_lists(alloc, entries)?,
        })
    }

    /// The snapshot has to have the same.
    pub(crate) fn check(&self, alloc: Global, snapshot: &Snapshot) -> Result<()> {
        self.check_lists(alloc, snapshot)?;
        self.check_aged_five(alloc, snapshot)
    }

    fn check_lists(&self, alloc: Global, snapshot: &Snapshot) -> Result<()> {
        let mut all = Db::of(snapshot.share()?, Everything);
        all.with_history();
        self.check_reads(alloc, &all)
    }

    fn check_reads(&self, alloc: Global, all: &Db<Everything>) -> Result<()> {
        for (order, list) in ORDERS.iter().zip(self.lists.iter()) {
            check_seek(alloc, all, *order, list)?;
            check_first(alloc, all, *order, list)?;
        }
        if next_attribute(all, IDENT, CARDINALITY) != Some(CARDINALITY) {
            bail!("an entity has another next attribute than in the first entry");
        }
        Ok(())
    }

    fn check_aged_five(&self, alloc: Global, snapshot: &Snapshot) -> Result<()> {
        let now = Db::of(snapshot.share()?, Everything);
        check_range(alloc, &now, &self.aged_five)
    }
}

fn whole_lists(alloc: Global, entries: &[Entry]) -> Result<Vec<Vec<Datom>>> {
    let mut lists = Vec::new(alloc);
    for order in ORDERS {
        lists.push(whole_list(alloc, entries, *order)?)?;
    }
    Ok(lists)
}

fn whole_list(alloc: Global, entries: &[Entry], order: Order) -> Result<Vec<Datom>, Memory> {
    let all = Range::NotBelow(from_the_first(order));
    scan(alloc, entries, whole(true), order, &all)
}

fn aged_five(alloc: Global, entries: &[Entry]) -> Result<Vec<Datom>, Memory> {
    let five = Range::Between(AGE, Some(Value::Long(5)), Some(Value::Long(6)));
    scan(alloc, entries, whole(false), Order::Avet, &five)
}

/// The filter that selects every datom.
#[derive(Drop)]
struct Everything;

impl Selector for Everything {
    ghost use Rattle.std.specs.Prelude.{⊤};

    ghost selects = { λ _ d. ⊤ };

    fn test(&self, _d: &Datom) -> bool {
        true
    }
}

fn check_seek(alloc: Global, all: &Db<Everything>, order: Order, list: &[Datom]) -> Result<()> {
    let own = seek(alloc, all, &from_the_first(order))?;
    check_same(own.as_slice(), list)
}

fn check_first(alloc: Global, all: &Db<Everything>, order: Order, list: &[Datom]) -> Result<()> {
    let few = first(alloc, all, &from_the_first(order), 3)?;
    check_same(few.as_slice(), &list[..list.len().min(3)])
}

fn check_range(alloc: Global, now: &Db<Everything>, aged_five: &[Datom]) -> Result<()> {
    let bounds = Bounds {
        start: Some(Value::Long(5)),
        end: Some(Value::Long(6)),
    };
    let own = index_range(alloc, now, AGE, bounds)?;
    check_same(own.as_slice(), aged_five)
}

/// Leads to all that the order has.
fn from_the_first(order: Order) -> Probe {
    Probe {
        order,
        e: None,
        a: None,
        v: None,
        t: None,
    }
}

/// All transactions.
fn whole(history: bool) -> Window {
    Window {
        from: 0,
        to: u64::MAX,
        history,
    }
}

fn check_same(own: &[Datom], wanted: &[Datom]) -> Result<()> {
    if !are_same(own, wanted) {
        bail!("an index is otherwise than the plain program has it");
    }
    Ok(())
}

fn are_same(own: &[Datom], other: &[Datom]) -> bool {
    own.len() == other.len() && own.iter().zip(other).all(|(x, y)| is_same(x, y))
}

fn is_same(x: &Datom, y: &Datom) -> bool {
    x.e == y.e && x.a == y.a && x.v == y.v && x.t == y.t && x.added == y.added
}
