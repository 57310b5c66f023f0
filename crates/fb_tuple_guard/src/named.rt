//! The composite that names give.
ghost use Rattle.std.specs.Prelude.{◌≡◌, ℕ, List, IfOk};
ghost use Rattle.std.specs.Option.{option_map};
ghost use Rattle.fb_values.specs.declared.facts.Entry.{Entry};
ghost use Rattle.fb_model.specs.Facts.{facts};
ghost use Rattle.fb_schema.specs.Described.{SchemaStands};
ghost use Rattle.tuple_model.specs.Composite.{attributes_named as model_attributes_named};
ghost use Rattle.tuple_model.specs.Given.{if_composite as model_if_composite};
ghost use Rattle.fb_tuple_guard.specs.Sharing.{composite_named as model_composite_named, id_named};

use fb_memory::Memory;
use fb_schema::{Schema, schemas_tell_of_attributes};
use fb_text::Text;
use fb_tuples::bad_place;
use std::alloc::Global;

/// The composite that the names give, if they give one.
pub fn composite_named(
    alloc: Global,
    schema: &Schema,
    names: &[Text],
) -> Result<Option<Vec<u64>>, Memory>
    ensures { IfOk result (λ attrs. (h : List Entry) → SchemaStands schema.now h
        → option_map (λ list. list.items) attrs ≡ model_composite_named (facts h) names.now) }
{
    schemas_tell_of_attributes();
    match attributes_named(alloc, schema, names)? {
        Some(attrs) => Ok(if_composite(schema, attrs)),
        None => Ok(None),
    }
}

fn if_composite(schema: &Schema, attrs: Vec<u64>) -> Option<Vec<u64>>
    ensures { (h : List Entry) → SchemaStands schema.now h
        → option_map (λ list. list.items) result ≡ model_if_composite (facts h) attrs.items }
{
    match bad_place(schema, &attrs) {
        None => Some(attrs),
        Some(_) => None,
    }
}

/// The attributes that the names name, where each names one.
fn attributes_named(
    alloc: Global,
    schema: &Schema,
    names: &[Text],
) -> Result<Option<Vec<u64>>, Memory>
    ensures { IfOk result (λ attrs. option_map (λ list. list.items) attrs
        ≡ model_attributes_named schema.now names.now) }
{
    let mut attrs = Vec::new(alloc);
    for name in names {
        let Some(a) = id_of(schema, name) else {
            return Ok(None);
        };
        attrs.push(a)?;
    }
    Ok(Some(attrs))
}

fn id_of(schema: &Schema, name: &Text) -> Option<u64>
    ensures { result ≡ id_named schema.now name.now }
{
    match schema.named(name) {
        Some(attribute) => Some(attribute.id),
        None => None,
    }
}
