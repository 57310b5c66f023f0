//! Two rising lists as one: facts, and changes that concern some of their triples.
ghost use Rattle.std.specs.Prelude.{◌≡◌, [], ◌∷◌, ◌++◌, IfOk, IsTrue, filter, if◌then◌else◌};
ghost use Rattle.tx_after.specs.Triples.{triple_cmp as model_triple_cmp, triples_rise, is_added, with_changes};

use fb_memory::Memory;
use fb_values::{Datom, Order};
use std::alloc::Global;
use std::cmp::Ordering;

/// The facts whose triples no change concerns, and the additions, in the order.
pub fn merged(
    alloc: Global,
    order: Order,
    before: &[Datom],
    changes: &[Datom],
) -> Result<Vec<Datom>, Memory>
    requires before { IsTrue (triples_rise order before.now) }
    requires changes { IsTrue (triples_rise order changes.now) }
    ensures { IfOk result (λ list. list.items ≡ with_changes order before.now changes.now) }
{
    let mut after = Vec::new(alloc);
    let mut old = 0;
    let mut new = 0;
    while old < before.len() && new < changes.len() {
        let d = &before[old];
        let change = &changes[new];
        match cmp_triples(order, d, change) {
            Ordering::Less => {
                after.push(d.copy()?)?;
                old += 1;
            }
            Ordering::Equal => old += 1,
            Ordering::Greater => {
                push_addition(&mut after, change)?;
                new += 1;
            }
        }
    }
    push_all(&mut after, &before[old..])?;
    push_additions(&mut after, &changes[new..])?;
    Ok(after)
}

/// How two datoms compare, whatever their t.
fn cmp_triples(order: Order, x: &Datom, y: &Datom) -> Ordering
    ensures { result ≡ model_triple_cmp order x.now y.now }
{
    let e = || x.e.cmp(&y.e);
    let a = || x.a.cmp(&y.a);
    let v = || x.v.cmp(&y.v);
    match order {
        Order::Eavt => e().then_with(a).then_with(v),
        Order::Aevt => a().then_with(e).then_with(v),
        Order::Avet => a().then_with(v).then_with(e),
        Order::Vaet => v().then_with(a).then_with(e),
    }
}

fn push_all(list: &mut Vec<Datom>, datoms: &[Datom]) -> Result<(), Memory>
    ensures { IfOk result (λ _. list.new.items ≡ list.old.items ++ datoms.now) }
{
    for d in datoms {
        list.push(d.copy()?)?;
    }
    Ok(())
}

pub fn push_additions(list: &mut Vec<Datom>, changes: &[Datom]) -> Result<(), Memory>
    ensures { IfOk result (λ _. list.new.items ≡ list.old.items ++ filter is_added changes.now) }
{
    for d in changes {
        push_addition(list, d)?;
    }
    Ok(())
}

/// Pushes the change if it is an addition.
fn push_addition(list: &mut Vec<Datom>, d: &Datom) -> Result<(), Memory>
    ensures { IfOk result
        (λ _. list.new.items ≡ list.old.items ++ (if d.now.added then d.now ∷ [] else [])) }
{
    if d.added {
        list.push(d.copy()?)?;
    }
    Ok(())
}
