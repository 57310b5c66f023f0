//! The attributes of an entity by their names. Where its datoms are not at hand, one search finds each attribute, whatever its values
//! are.
ghost use Rattle.std.specs.Prelude.{◌≡◌, ◌<◌, ◌+◌, ℕ, ◌↔◌, List, [], Contains, length, drop, filter_map, Some, IfOk};
ghost use Rattle.std.specs.List.{All};
ghost use Rattle.fb_values.specs.declared.facts.Datom.{Datom as TheDatom};
ghost use Rattle.fb_values.specs.declared.facts.Entry.{Entry};
ghost use Rattle.fb_values.specs.Orders.{text_cmp};
ghost use Rattle.fb_model.specs.Facts.{facts as facts_of};
ghost use Rattle.fb_model.specs.Lawful.{IsLawful};
ghost use Rattle.fb_model.specs.Schema.{Attribute as ModelAttribute, attribute_of, attribute_named};
ghost use Rattle.fb_scan.specs.Attributes.{HasAttribute};
ghost use Rattle.fb_db.specs.Seen.{window_of};
ghost use Rattle.fb_schema.specs.Described.{SchemaStands};
ghost use Rattle.pull_model.specs.Found as model;
ghost use Rattle.fb_pull.specs.Near.{IsNear, lent};
ghost use Rattle.fb_pull.specs.Views.{Sees};
ghost use Rattle.fb_pull.specs.Attributes.{Rise, name_of, names_among, names_of, put, IsOfSchema, IsOwn, IsPlace, HaveNames};

use crate::near::Near;
use fb_db::Db;
use fb_memory::Memory;
use fb_model::{attributes_stay_attributes, facts_are_what_holds, one_value_and_one_holder};
use fb_preds::Selector;
use fb_scan::next_attribute;
use fb_schema::{Attribute, Schema, schemas_tell_of_attributes};
use fb_text::Text;
use fb_values::Datom;
use std::alloc::Global;
use std::cmp::Ordering;
use tx_model::lawful_histories_are_small;

/// The attributes that the entity has, in the order of their names' bytes.
pub fn attributes_of_entity<'a, S: Selector>(
    alloc: Global,
    db: &'a Db<S>,
    near: &Near<'_>,
    e: u64,
) -> Result<Vec<&'a Attribute>, Memory>
    requires { IsNear db.now (S.selects db.now.filter) e near.now }
    ensures names { (facts : model.Db) → Sees db.now (S.selects db.now.filter) facts
        → IfOk result (λ list. names_of list.items ≡ model.names_of_entity facts e) }
    ensures own { IfOk result
        (λ list. All (λ attribute. IsOwn (facts_of db.now.snapshot.entries) attribute.now) list.items) }
{
    schemas_tell_of_attributes();
    attributes_are_named_by_their_names();
    let _ = db.snapshot.entries();
    match near {
        Near::Few(datoms) => attributes_among(alloc, db.snapshot.schema(), datoms),
        Near::Nothing => {
            let numbers = numbers_of(alloc, db, e)?;
            attributes_in_order(alloc, db.snapshot.schema(), &numbers)
        }
    }
}

/// In a lawful history an attribute is the one that its name names.
fn attributes_are_named_by_their_names()
    ensures { (h : List Entry) (attribute : ModelAttribute) → IsLawful h
        → attribute_of (facts_of h) attribute.id ≡ Some attribute
        → attribute_named (facts_of h) attribute.name ≡ Some attribute }
{
    attributes_stay_attributes();
    facts_are_what_holds();
    one_value_and_one_holder();
}

/// The datoms' attributes, each once. It goes from the last one to the first, as names are put before others.
fn attributes_among<'a>(
    alloc: Global,
    schema: &'a Schema,
    datoms: &[&Datom],
) -> Result<Vec<&'a Attribute>, Memory>
    ensures { IfOk result
        (λ list. HaveNames schema.now list.items (names_among schema.now (lent datoms.now))) }
{
    let mut list = Vec::with_capacity(alloc, datoms.len())?;
    let mut i = datoms.len();
    while i > 0 {
        i -= 1;
        put_datom(&mut list, schema, datoms, i)?;
    }
    Ok(list)
}

/// Puts the datom's attribute in its place, unless the next datom has put it there.
fn put_datom<'a>(
    list: &mut Vec<&'a Attribute>,
    schema: &'a Schema,
    datoms: &[&Datom],
    i: usize,
) -> Result<(), Memory>
    requires { i < length datoms.now }
    ensures { HaveNames schema.now list.old.items
        (names_among schema.now (drop (i + 1) (lent datoms.now)))
        → IfOk result (λ _. HaveNames schema.now list.new.items
        (names_among schema.now (drop i (lent datoms.now)))) }
{
    let a = datoms[i].a;
    if i + 1 < datoms.len() && datoms[i + 1].a == a {
        return Ok(());
    }
    put_attribute(list, schema, a)
}

/// The numbers of the attributes that the entity has, in order.
fn numbers_of<S: Selector>(alloc: Global, db: &Db<S>, e: u64) -> Result<Vec<u64>, Memory>
    ensures rising { IfOk result (λ list. Rise list.items) }
    ensures members { IfOk result (λ list. (a : ℕ) → Contains list.items a
        ↔ HasAttribute db.now.snapshot.entries (window_of db.now) (S.selects db.now.filter) e a) }
{
    lawful_histories_are_small();
    let _ = db.snapshot.entries();
    let mut list = Vec::new(alloc);
    let mut next = next_attribute(db, e, 0);
    while let Some(a) = next {
        list.push(a)?;
        next = next_attribute(db, e, a + 1);
    }
    Ok(list)
}

/// The attributes with the numbers, each once.
fn attributes_in_order<'a>(
    alloc: Global,
    schema: &'a Schema,
    numbers: &[u64],
) -> Result<Vec<&'a Attribute>, Memory>
    ensures { IfOk result (λ list. HaveNames schema.now list.items
        (model.names_in_order (filter_map (name_of schema.now) numbers.now))) }
{
    let mut list = Vec::with_capacity(alloc, numbers.len())?;
    let mut i = numbers.len();
    while i > 0 {
        i -= 1;
        put_attribute(&mut list, schema, numbers[i])?;
    }
    Ok(list)
}

/// Puts the attribute in its place.
fn put_attribute<'a>(
    list: &mut Vec<&'a Attribute>,
    schema: &'a Schema,
    a: u64,
) -> Result<(), Memory>
    ensures { (names : List (List ℕ)) → HaveNames schema.now list.old.items names
        → IfOk result
        (λ _. HaveNames schema.now list.new.items (put (name_of schema.now a) names)) }
{
    match schema.attribute(a) {
        Some(attribute) => put_named(list, attribute),
        None => Ok(()),
    }
}

/// Puts the attribute in its place of a list in the order of names, where its name is not there yet.
fn put_named<'a>(list: &mut Vec<&'a Attribute>, attribute: &'a Attribute) -> Result<(), Memory>
    ensures names { IfOk result (λ _. names_of list.new.items
        ≡ model.put_name attribute.now.ident (names_of list.old.items)) }
    ensures members { (schema : List TheDatom) → IsOfSchema schema attribute.now
        → All (λ other. IsOfSchema schema other.now) list.old.items
        → IfOk result (λ _. All (λ other. IsOfSchema schema other.now) list.new.items) }
{
    match place_of(list, &attribute.ident) {
        Some(at) => Ok(list.insert(at, attribute)?),
        None => Ok(()),
    }
}

/// The place of the name in a list in the order of names, and none where it is there.
fn place_of(list: &[&Attribute], name: &Text) -> Option<usize>
    ensures { IsPlace name.now (names_of list.now) result }
{
    for (at, other) in list.iter().enumerate() {
        match cmp_names(name, &other.ident) {
            Ordering::Less => return Some(at),
            Ordering::Equal => return None,
            Ordering::Greater => {}
        }
    }
    Some(list.len())
}

fn cmp_names(x: &Text, y: &Text) -> Ordering
    ensures { result ≡ text_cmp x.now y.now }
{
    x.as_str().cmp(y.as_str())
}
