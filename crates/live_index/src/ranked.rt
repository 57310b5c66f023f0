//! A datom of a table on its way to its place in an order.
ghost use Rattle.std.specs.Prelude.{◌≡◌};
ghost use Rattle.fb_prefix.specs.Prefixes.{prefix_in};

use fb_values::{Datom, Order};
use live_runs::Member;

/// A datom, and its member in an order.
#[derive(Clone, Copy)]
pub struct Ranked<'a> {
    pub member: Member,
    pub order: Order,
    pub datom: &'a Datom,
    ghost prefix_is: { member.prefix ≡ prefix_in order datom.now },
}
