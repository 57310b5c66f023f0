//! What the schema of a history says of it.
ghost use Rattle.std.specs.Prelude.{◌≡◌, ℕ, List};
ghost use Rattle.fb_values.specs.declared.facts.Datom.{Datom};
ghost use Rattle.fb_values.specs.declared.facts.Entry.{Entry};
ghost use Rattle.fb_values.specs.declared.indexes.Order.{Order};
ghost use Rattle.fb_model.specs.Facts.{facts};
ghost use Rattle.fb_model.specs.Schema.{attribute_of, attribute_named, named, covers, schema_in, schema_of};
ghost use Rattle.fb_schema.specs.Described.{SchemaStands};

/// It says of each entity, ident and index what the history's facts say.
pub fn schemas_tell_of_attributes()
    ensures attribute { (schema : List Datom) (h : List Entry) (e : ℕ) → SchemaStands schema h
        → attribute_of schema e ≡ attribute_of (facts h) e }
    ensures entity { (schema : List Datom) (h : List Entry) (name : List ℕ) → SchemaStands schema h
        → named schema name ≡ named (facts h) name }
    ensures name { (schema : List Datom) (h : List Entry) (name : List ℕ) → SchemaStands schema h
        → attribute_named schema name ≡ attribute_named (facts h) name }
    ensures coverage { (schema : List Datom) (h : List Entry) (order : Order) (a : ℕ)
        → SchemaStands schema h → covers schema order a ≡ covers (facts h) order a }
{}

/// Its attributes, and the names of the other entities, are the schema of the history.
pub fn schemas_are_of_their_histories()
    ensures { (schema : List Datom) (h : List Entry) → SchemaStands schema h
        → schema_in schema ≡ schema_of h }
{}
