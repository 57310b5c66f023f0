//! The tuples of entities after changes.
ghost use Rattle.std.specs.Prelude.{◌≡◌, IfOk};
ghost use Rattle.std.specs.Ordering.{is_eq};
ghost use Rattle.std.specs.List.{list_all};
ghost use Rattle.tx_after.specs.After.{AreChanges};
ghost use Rattle.fb_model.specs.Facts as model;
ghost use Rattle.tuple_model.specs.Tuples.{least_value, tuple_of, tuple_cmp, member_cmp};
ghost use Rattle.tuple_model.specs.UniqueTuples.{is_whole as model_is_whole};
ghost use Rattle.fb_tuple_guard.specs.Sharing.{facts_after, first_of};

use fb_memory::Memory;
use fb_values::{Datom, Value};
use fb_view::Snapshot;
use std::alloc::Global;
use tx_after::values_of;

/// The tuples of a composite after changes that are not recorded yet.
#[derive(Clone, Copy, Drop)]
pub struct Tuples<'a> {
    pub alloc: Global,
    pub before: &'a Snapshot,
    pub changes: &'a [Datom],
    /// The composite's attributes.
    pub attrs: &'a [u64],
}

impl Tuples<'_> {
    /// The entity's tuple.
    pub fn of(&self, e: u64) -> Result<Vec<Option<Value>>, Memory>
        requires { AreChanges self.now.changes.now }
        ensures { IfOk result (λ tuple. tuple.items
            ≡ tuple_of (facts_after self.now) self.now.attrs.now e) }
    {
        let mut tuple = Vec::with_capacity(self.alloc, self.attrs.len())?;
        for a in self.attrs {
            tuple.push(self.member(e, *a)?)?;
        }
        Ok(tuple)
    }

    fn member(&self, e: u64, a: u64) -> Result<Option<Value>, Memory>
        requires { AreChanges self.now.changes.now }
        ensures { IfOk result (λ member. member
            ≡ least_value (model.values_of (facts_after self.now) e a)) }
    {
        let values = values_of(self.alloc, self.before, self.changes, e, a)?;
        first(&values)
    }
}

fn first(values: &[Value]) -> Result<Option<Value>, Memory>
    ensures { IfOk result (λ v. v ≡ first_of values.now) }
{
    match values {
        [v, ..] => Ok(Some(v.copy()?)),
        [] => Ok(None),
    }
}

/// Whether no member is nil.
pub fn is_whole(tuple: &[Option<Value>]) -> bool
    ensures { result ≡ model_is_whole tuple.now }
{
    tuple.iter().all(|member| member.is_some())
}

pub fn is_same(tuple: &[Option<Value>], other: &[Option<Value>]) -> bool
    ensures { result ≡ is_eq (tuple_cmp tuple.now other.now) }
{
    match (tuple, other) {
        ([], []) => true,
        ([], [_, ..]) => false,
        ([_, ..], []) => false,
        ([member, members @ ..], [other, others @ ..]) => {
            is_same_member(member, other) && is_same(members, others)
        }
    }
}

fn is_same_member(member: &Option<Value>, other: &Option<Value>) -> bool
    ensures { result ≡ is_eq (member_cmp member.now other.now) }
{
    match (member, other) {
        (None, None) => true,
        (None, Some(_)) => false,
        (Some(_), None) => false,
        (Some(v), Some(w)) => v == w,
    }
}
