//! One law, judged on datoms that lie in its order: a group after another.
ghost use Rattle.std.specs.Prelude.{◌≡◌, ◌+◌, ◌<◌, ◌^◌, ◌&&◌, if◌then◌else◌, List, IfOk, IsTrue, filter};
ghost use Rattle.fb_values.specs.declared.facts.Datom.{Datom};
ghost use Rattle.log_sweep.specs.Groups.{lent, alike, Keeps, stands as model_stands, is_at as model_is_at};
ghost use Rattle.log_sweep.specs.Sweeps as model;

use crate::law::{Law, stands};
use fb_memory::Memory;
use fb_schema::Schema;
use fb_values::Datom;
use std::cmp::Ordering;

/// Whether the datoms keep the law. They are put in its order, where those of one group lie as they lay before.
pub fn keeps(law: Law, schema: &Schema, datoms: &mut Vec<&Datom>) -> Result<bool, Memory>
    ensures kept { IfOk result (λ keeps. IsTrue keeps
        → Keeps law schema.now (lent datoms.old.items)) }
    ensures stable { (d : Datom) → filter (alike law d) (lent datoms.new.items)
        ≡ filter (alike law d) (lent datoms.old.items) }
{
    datoms.sort_by(|x, y| law.cmp(x, y))?;
    Ok(keeps_swept(law, schema, datoms))
}

fn keeps_swept(law: Law, schema: &Schema, sorted: &[&Datom]) -> bool
    ensures { result ≡ model.keeps_swept law schema.now 0 (lent sorted.now) }
{
    let mut standing = 0;
    for (i, d) in sorted.iter().enumerate() {
        match step(law, schema, standing, d, &sorted[i + 1..]) {
            Some(next) => standing = next,
            None => return false,
        }
    }
    true
}

/// How many of the next datom's group stand before it, where the law allows this one.
fn step(law: Law, schema: &Schema, standing: usize, d: &Datom, behind: &[&Datom]) -> Option<usize>
    requires { standing + 1 < 2 ^ 64 }
    ensures { result ≡ model.stepped law schema.now standing d.now (lent behind.now) }
{
    let joins = joins(law, d, behind);
    let goes_on = goes_on(joins, d.t, behind);
    if !law.allows(schema, standing, d, goes_on) {
        return None;
    }
    Some(standing_for_next(standing, d, joins))
}

fn standing_for_next(standing: usize, d: &Datom, joins: bool) -> usize
    requires { standing + 1 < 2 ^ 64 }
    ensures { result ≡ (if joins then model_stands standing d.now else 0) }
{
    if joins { stands(standing, d) } else { 0 }
}

/// Whether the first of the datoms is of the same group.
fn joins(law: Law, d: &Datom, behind: &[&Datom]) -> bool
    ensures { result ≡ model.joins law d.now (lent behind.now) }
{
    match behind {
        [] => false,
        [next, ..] => law.cmp(d, next) == Ordering::Equal,
    }
}

/// Whether the first of the datoms is of the same group and of the same entry.
fn goes_on(joins: bool, t: u32, behind: &[&Datom]) -> bool
    ensures { result ≡ (joins && model_is_at t (lent behind.now)) }
{
    joins && is_at(t, behind)
}

/// Whether the first of the datoms is of the entry.
fn is_at(t: u32, behind: &[&Datom]) -> bool
    ensures { result ≡ model_is_at t (lent behind.now) }
{
    match behind {
        [] => false,
        [next, ..] => next.t == t,
    }
}
