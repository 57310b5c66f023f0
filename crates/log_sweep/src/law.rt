//! The laws that compare datoms with one another. Each brings them together in groups, and looks at each datom of a group
//! in the order of time, with the number of those of the group that stand before it.
ghost use Rattle.std.specs.Prelude.{◌≡◌, ◌+◌, ◌<◌, ◌^◌, ◌&&◌};
ghost use Rattle.std.specs.Ordering.{is_eq};
ghost use Rattle.log_sweep.specs.Groups as model;

use fb_schema::Schema;
use fb_values::Datom;
use std::cmp::Ordering;

#[derive(Clone, Copy)]
pub enum Law {
    /// Each addition is of a triple that does not hold, and each retraction of one that holds.
    ChangesAlone,
    /// After each entry an entity has at most one value of an attribute of cardinality one.
    OneValueEach,
    /// After each entry at most one entity has a value of a unique attribute.
    OneHolderEach,
}

impl Law {
    /// Datoms that are equal by it are in one group.
    pub fn cmp(self, x: &Datom, y: &Datom) -> Ordering
        ensures { result ≡ model.group_cmp self x.now y.now }
    {
        let e = || x.e.cmp(&y.e);
        let a = || x.a.cmp(&y.a);
        let v = || x.v.cmp(&y.v);
        match self {
            Law::ChangesAlone => e().then_with(a).then_with(v),
            Law::OneValueEach => e().then_with(a),
            Law::OneHolderEach => a().then_with(v),
        }
    }

    /// Whether the law allows the datom where so many of its group stand before it. `goes_on` is whether the next of the
    /// group is of the same entry.
    pub fn allows(self, schema: &Schema, standing: usize, d: &Datom, goes_on: bool) -> bool
        requires { standing + 1 < 2 ^ 64 }
        ensures { result ≡ model.allows self schema.now standing d.now goes_on }
    {
        match self {
            Law::ChangesAlone => d.added == (standing == 0),
            Law::OneValueEach => goes_on || stands(standing, d) <= 1 || !schema.is_one(d.a),
            Law::OneHolderEach => goes_on || stands(standing, d) <= 1 || !schema.is_unique(d.a),
        }
    }
}

/// How many of a group stand after its datom.
pub fn stands(standing: usize, d: &Datom) -> usize
    requires { standing + 1 < 2 ^ 64 }
    ensures { result ≡ model.stands standing d.now }
{
    if d.added {
        standing + 1
    } else {
        standing.saturating_sub(1)
    }
}
