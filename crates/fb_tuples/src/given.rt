//! What forms give: a composite by the names of its attributes, and the bounds of a range of its tuples.
ghost use Rattle.std.specs.Prelude.{◌≡◌, ◌≤◌, ◌&&◌, not, ℕ, List, [], length, take, IfOk, Some, nat_eq};
ghost use Rattle.std.specs.List.{list_any};
ghost use Rattle.std.specs.Option.{option_map, option_and_then, option_map_or};
ghost use Rattle.edn_form.specs.View.{form_of, forms_of, members as model_members};
ghost use Rattle.fb_values.specs.declared.facts.Entry.{Entry};
ghost use Rattle.fb_model.specs.Facts.{facts};
ghost use Rattle.fb_model.specs.Schema.{is_one};
ghost use Rattle.fb_schema.specs.Described.{SchemaStands};
ghost use Rattle.tx_model.specs.Values.{if_of_type};
ghost use Rattle.edn_values.specs.Values.{value_of_form};
ghost use Rattle.fb_numbers.specs.Numbers.{type_ref};
ghost use Rattle.tuple_model.specs.Composite.{is_among, first_unfit as model_first_unfit, bad_place as model_bad_place};
ghost use Rattle.tuple_model.specs.Given.{composite_in, if_composite as model_if_composite, kinds_of, member_in, members_in, bound_in};
ghost use Rattle.fb_tuples.specs.Reading.{id_named, ids_in, kind_of as model_kind_of};

use edn_form::Edn;
use edn_values::as_value;
use fb_memory::Memory;
use fb_numbers::TYPE_REF;
use fb_schema::{Schema, schemas_tell_of_attributes};
use fb_values::Value;
use std::alloc::Global;

/// How many attributes a composite has: two at least, and eight at most.
const FEWEST: usize = 2;

const MOST: usize = 8;

/// The first place, counted from 0, whose attribute is not installed, has several values or was named already: place 0
/// where there are too few or too many.
pub fn bad_place(schema: &Schema, attrs: &[u64]) -> Option<u32>
    ensures { (h : List Entry) → SchemaStands schema.now h
        → result ≡ model_bad_place (facts h) attrs.now }
{
    schemas_tell_of_attributes();
    if attrs.len() < FEWEST || attrs.len() > MOST {
        return Some(0);
    }
    first_unfit(schema, attrs)
}

fn first_unfit(schema: &Schema, attrs: &[u64]) -> Option<u32>
    requires { length attrs.now ≤ 8 }
    ensures { result ≡ model_first_unfit schema.now [] attrs.now }
{
    for (place, a) in attrs.iter().enumerate() {
        if !is_fit(schema, &attrs[..place], *a) {
            return Some(place as u32);
        }
    }
    None
}

/// Whether an entity has one value of the attribute, and it is none of those before.
fn is_fit(schema: &Schema, before: &[u64], a: u64) -> bool
    ensures { result ≡ (is_one schema.now a && not (is_among before.now a)) }
{
    schema.is_one(a) && !before.contains(&a)
}

/// The composite that the form gives: a vector of the names of its attributes.
pub fn composite(alloc: Global, schema: &Schema, form: &Edn) -> Result<Option<Vec<u64>>, Memory>
    ensures { IfOk result (λ attrs. (h : List Entry) → SchemaStands schema.now h
        → option_map (λ list. list.items) attrs ≡ composite_in (facts h) (form_of form.now)) }
{
    schemas_tell_of_attributes();
    let Edn::Vector(names) = form else {
        return Ok(None);
    };
    match attributes_named(alloc, schema, names.as_slice())? {
        Some(attrs) => Ok(if_composite(schema, attrs)),
        None => Ok(None),
    }
}

fn if_composite(schema: &Schema, attrs: Vec<u64>) -> Option<Vec<u64>>
    ensures { (h : List Entry) → SchemaStands schema.now h
        → option_map (λ list. list.items) result ≡ model_if_composite (facts h) attrs.items }
{
    match bad_place(schema, &attrs) {
        None => Some(attrs),
        Some(_) => None,
    }
}

/// The attributes that the forms name, where each names one.
fn attributes_named(
    alloc: Global,
    schema: &Schema,
    names: &[Edn],
) -> Result<Option<Vec<u64>>, Memory>
    ensures { IfOk result (λ attrs. option_map (λ list. list.items) attrs
        ≡ ids_in schema.now (forms_of names.now)) }
{
    let mut attrs = Vec::new(alloc);
    for name in names {
        let Some(a) = attribute_named(schema, name) else {
            return Ok(None);
        };
        attrs.push(a)?;
    }
    Ok(Some(attrs))
}

fn attribute_named(schema: &Schema, name: &Edn) -> Option<u64>
    ensures { result ≡ id_named schema.now (form_of name.now) }
{
    let Edn::Key(keyword) = name else {
        return None;
    };
    let attribute = schema.named(keyword)?;
    Some(attribute.id)
}

/// The bound that the form gives, if it gives one: nothing where the range is open there, or else a nil or a value for each
/// attribute.
pub fn bound(
    alloc: Global,
    schema: &Schema,
    attrs: &[u64],
    form: &Edn,
) -> Result<Option<Option<Vec<Option<Value>>>>, Memory>
    ensures { IfOk result (λ bound. (h : List Entry) → SchemaStands schema.now h
        → option_map (option_map (λ tuple. tuple.items)) bound
        ≡ bound_in (kinds_of (facts h) attrs.now) (form_of form.now)) }
{
    schemas_tell_of_attributes();
    match form {
        Edn::Nil => Ok(Some(None)),
        Edn::Vector(members) => match tuple_given(alloc, schema, attrs, members.as_slice())? {
            Some(tuple) => Ok(Some(Some(tuple))),
            None => Ok(None),
        },
        _ => Ok(None),
    }
}

/// A member for each attribute, where the forms are as many and each gives one.
fn tuple_given(
    alloc: Global,
    schema: &Schema,
    attrs: &[u64],
    members: &[Edn],
) -> Result<Option<Vec<Option<Value>>>, Memory>
    ensures { IfOk result (λ tuple. option_map (λ list. list.items) tuple
        ≡ members_in (kinds_of schema.now attrs.now) (forms_of members.now)) }
{
    if members.len() != attrs.len() {
        return Ok(None);
    }
    let mut tuple = Vec::with_capacity(alloc, attrs.len())?;
    for (place, a) in attrs.iter().enumerate() {
        let Some(member) = member(kind_of(schema, *a), &members[place])? else {
            return Ok(None);
        };
        tuple.push(member)?;
    }
    Ok(Some(tuple))
}

/// The type of the attribute, or 0 where there is none.
fn kind_of(schema: &Schema, a: u64) -> u64
    ensures { result ≡ model_kind_of schema.now a }
{
    match schema.attribute(a) {
        Some(attribute) => attribute.kind,
        None => 0,
    }
}

/// Nil, or a value of the type.
fn member(kind: u64, form: &Edn) -> Result<Option<Option<Value>>, Memory>
    ensures { IfOk result (λ member. member ≡ member_in kind (form_of form.now)) }
{
    if let Edn::Nil = form {
        return Ok(Some(None));
    }
    let value = value_given(kind, form)?;
    Ok(value.map(Some))
}

fn value_given(kind: u64, form: &Edn) -> Result<Option<Value>, Memory>
    ensures { IfOk result (λ value. value
        ≡ option_and_then (if_of_type kind) (value_of_form kind (form_of form.now))) }
{
    if kind == TYPE_REF {
        return Ok(entity_given(form));
    }
    as_value(kind, form)
}

/// An entity by its number.
fn entity_given(form: &Edn) -> Option<Value>
    ensures { result
        ≡ option_and_then (if_of_type type_ref) (value_of_form type_ref (form_of form.now)) }
{
    let Edn::Int(n) = form else {
        return None;
    };
    let e = u64::try_from(*n).ok()?;
    Some(Value::Ref(e))
}
