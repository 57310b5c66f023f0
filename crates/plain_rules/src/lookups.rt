//! The lookup refs in a name, and what may be wrong with one.
use crate::db::Db;
use edn_form::{Edn, Items};
use fb_memory::Memory;
use fb_numbers::TYPE_REF;
use fb_text::Text;
use plain_asks::{Name, value_in};
use plain_reads::{Attribute, attribute_named};

/// What may be wrong with a lookup ref.
#[derive(Clone, Copy)]
pub enum LookupFault {
    /// It has no attribute.
    Unknown,
    /// Its value is none of its attribute.
    Wrong,
    /// Its attribute is not unique.
    NotUnique,
}

/// Whether a lookup ref in the name has the fault.
pub fn has_faulty_lookup(fault: LookupFault, db: &Db<'_>, name: &Name<'_>) -> Result<bool, Memory> {
    match name {
        Name::Lookup(k, value) => has_fault(fault, db, k, value),
        _ => Ok(false),
    }
}

/// Whether the lookup ref has the fault, or one that is its value, where values are entities.
#[cycle(inside)]
fn has_fault(fault: LookupFault, db: &Db<'_>, k: &Text, value: &Edn) -> Result<bool, Memory> {
    let Some(attribute) = attribute_named(db.facts, k.as_str()) else {
        return Ok(matches!(fault, LookupFault::Unknown));
    };
    let is_faulty = match fault {
        LookupFault::Unknown => false,
        LookupFault::Wrong => is_wrong(&attribute, value)?,
        LookupFault::NotUnique => attribute.uniqueness == 0,
    };
    match value {
        Edn::Vector(items) if !is_faulty && attribute.kind == TYPE_REF => {
            has_fault_inside(fault, db, items)
        }
        _ => Ok(is_faulty),
    }
}

#[cycle(inside)]
fn has_fault_inside(fault: LookupFault, db: &Db<'_>, items: &Items) -> Result<bool, Memory> {
    match items.as_slice() {
        [Edn::Key(k), value] => has_fault(fault, db, k, value),
        _ => Ok(false),
    }
}

/// Where values are entities, a number, an ident or a lookup ref names one.
fn is_wrong(attribute: &Attribute<'_>, value: &Edn) -> Result<bool, Memory> {
    match value {
        _ if attribute.kind != TYPE_REF => has_no_value(attribute, value),
        Edn::Int(n) => Ok(*n < 0),
        Edn::Key(_) => Ok(false),
        Edn::Vector(items) => Ok(!matches!(items.as_slice(), [Edn::Key(_), _])),
        _ => Ok(true),
    }
}

/// Whether the form is no value of the attribute.
pub fn has_no_value(attribute: &Attribute<'_>, f: &Edn) -> Result<bool, Memory> {
    Ok(value_in(attribute.kind, f)?.is_none())
}
