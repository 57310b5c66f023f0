//! The datoms of an entity, read in one walk where they are few. `*` asks for all of them.
ghost use Rattle.std.specs.Prelude.{◌≡◌, Some, None, IfOk};
ghost use Rattle.fb_values.specs.declared.indexes.Order.TheVariants.{Eavt};
ghost use Rattle.fb_pull.specs.Near.{IsNear};

use fb_db::Db;
use fb_memory::Memory;
use fb_preds::Selector;
use fb_scan::lent::first;
use fb_values::{Datom, Order, Probe};
use pull_pattern::Item;
use std::alloc::Global;

/// An entity has few datoms if it has fewer than these, which is how many one walk reads at most.
const FEW: usize = 32;

/// What is at hand of an entity.
#[derive(Drop)]
pub enum Near<'a> {
    /// All of its datoms in view, by their attributes.
    Few(Vec<&'a Datom>),
    /// Nothing: each attribute is sought in the index.
    Nothing,
}

/// The entity's datoms, if the items ask for all of them and they are few.
pub fn at_hand<'a, S: Selector>(
    alloc: Global,
    db: &'a Db<S>,
    e: u64,
    items: &[Item],
) -> Result<Near<'a>, Memory>
    ensures { IfOk result (λ near. IsNear db.now (S.selects db.now.filter) e near) }
{
    if !has_wildcard(items) {
        return Ok(Near::Nothing);
    }
    let datoms = first(alloc, db, &probe_of(e), FEW)?;
    if datoms.len() < FEW {
        Ok(Near::Few(datoms))
    } else {
        Ok(Near::Nothing)
    }
}

fn has_wildcard(items: &[Item]) -> bool {
    for item in items {
        if matches!(item, Item::Wildcard) {
            return true;
        }
    }
    false
}

fn probe_of(e: u64) -> Probe
    ensures { result ≡ record { order = Eavt; e = Some e; a = None; v = None; t = None } }
{
    Probe {
        order: Order::Eavt,
        e: Some(e),
        a: None,
        v: None,
        t: None,
    }
}
