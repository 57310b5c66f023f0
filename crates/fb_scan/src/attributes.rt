//! The attributes of an entity, one after another.
ghost use Rattle.std.specs.Prelude.{◌≡◌, Some};
ghost use Rattle.fb_values.specs.declared.indexes.Order.TheVariants.{Eavt};
ghost use Rattle.fb_db.specs.Seen.{window_of};
ghost use Rattle.fb_scan.specs.Attributes.{IsNextAttribute};

use crate::ends::End;
use crate::walk::Scan;
use fb_db::Db;
use fb_preds::Selector;
use fb_values::{Order, Probe};

/// The first attribute from `from` on that the entity has in the view. One seek finds it, and no memory is taken.
pub fn next_attribute<S: Selector>(db: &Db<S>, e: u64, from: u64) -> Option<u64>
    ensures { IsNextAttribute db.now.snapshot.entries (window_of db.now) (S.selects db.now.filter)
        e from result }
{
    let entity = attributes_from(e, None);
    let mut scan = Scan::start(db, &attributes_from(e, Some(from)), End::Behind(&entity));
    Some(scan.next()?.a)
}

/// The datoms of the entity, or those from the attribute on.
fn attributes_from(e: u64, a: Option<u64>) -> Probe
    ensures { result ≡ record { order = Eavt; e = Some e; a = a; v = None; t = None } }
{
    Probe {
        order: Order::Eavt,
        e: Some(e),
        a,
        v: None,
        t: None,
    }
}
