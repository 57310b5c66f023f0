//! Which attributes an index holds, as scans ask for them.
ghost use Rattle.std.specs.Prelude.{◌≡◌};
ghost use Rattle.fb_model.specs.Facts.{facts};
ghost use Rattle.fb_model.specs.Schema.{covers};
ghost use Rattle.fb_scan.specs.Knowing.{known_at};

use crate::ends::End;
use fb_values::Order;
use fb_view::Snapshot;

/// Whether the index that a scan reads holds an attribute.
#[derive(Clone, Copy)]
pub struct Known {
    pub a: u64,
    pub is_held: bool,
}

impl Known {
    /// What is known of the attribute at which a scan ends. Most scans read no other.
    pub fn at(snapshot: &Snapshot, order: Order, end: End<'_>) -> Option<Known>
        ensures { result ≡ known_at snapshot.now.entries order end.entry }
    {
        match end.attribute() {
            Some(a) => Some(Known {
                a,
                is_held: holds(snapshot, order, a),
            }),
            None => None,
        }
    }
}

/// Whether the order's index holds the attribute.
pub fn holds(snapshot: &Snapshot, order: Order, a: u64) -> bool
    ensures { result ≡ covers (facts snapshot.now.entries) order a }
{
    let schema = snapshot.schema();
    let covers = schema.covers();
    covers.holds(order, a)
}
