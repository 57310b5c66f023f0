//! All datoms, what holds, and which datoms hold.
use fb_memory::Memory;
use fb_values::{Datom, Entry, Value};
use std::alloc::Global;

/// Whether the datom asserts or retracts the triple.
pub fn is_of(e: u64, a: u64, v: &Value, d: &Datom) -> bool {
    d.e == e && d.a == a && d.v == *v
}

/// Whether the triple holds after the datoms: the last one of the triple decides.
pub fn holds(datoms: &[Datom], e: u64, a: u64, v: &Value) -> bool {
    let mut held = false;
    for d in datoms {
        if is_of(e, a, v, d) {
            held = d.added;
        }
    }
    held
}

/// The last datoms of the triples that hold after the datoms.
pub fn standing(alloc: Global, datoms: &[Datom]) -> Result<Vec<Datom>, Memory> {
    let mut stand = Vec::new(alloc);
    for (i, d) in datoms.iter().enumerate() {
        let is_last = !datoms[i + 1..]
            .iter()
            .any(|later| is_of(d.e, d.a, &d.v, later));
        if d.added && is_last {
            stand.push(d.copy()?)?;
        }
    }
    Ok(stand)
}

/// What the entries record, one after another.
pub fn said(alloc: Global, entries: &[Entry]) -> Result<Vec<Datom>, Memory> {
    let mut all = Vec::new(alloc);
    for entry in entries {
        for d in entry.datoms.as_slice() {
            all.push(d.copy()?)?;
        }
    }
    Ok(all)
}
