//! Lists in the order of an index.
use fb_memory::Memory;
use fb_values::{Datom, Order, cmp_in};
use std::alloc::Global;
use std::cmp::Ordering;

/// The datoms in the order, and of those with equal keys the last one alone.
pub fn in_order(alloc: Global, order: Order, datoms: &[Datom]) -> Result<Vec<Datom>, Memory> {
    let mut list = Vec::new(alloc);
    for d in datoms {
        put(&mut list, order, d.copy()?)?;
    }
    Ok(list)
}

/// Puts the datom in its place of a list in order. It takes the place of one with an equal key.
fn put(list: &mut Vec<Datom>, order: Order, d: Datom) -> Result<(), Memory> {
    for at in 0..list.len() {
        match cmp_in(order, &d, &list[at]) {
            Ordering::Less => {
                list.insert(at, d)?;
                return Ok(());
            }
            Ordering::Equal => {
                list[at] = d;
                return Ok(());
            }
            Ordering::Greater => {}
        }
    }
    list.push(d)?;
    Ok(())
}
