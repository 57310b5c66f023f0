//! Attributes, looked up by their keywords once, and what the schema says of them.
ghost use Rattle.std.specs.Prelude.{◌≡◌, ◌++◌, ◌∷◌, [], List, IfOk};
ghost use Rattle.tx_model.specs.Walk as model;
ghost use Rattle.tx_asks.specs.declared.asks.LookupRef.{LookupRef as model_LookupRef};
ghost use Rattle.tx_expand.specs.View.{word_of, model_asks, model_ask};
ghost use Rattle.tx_expand.specs.Known.{HaveOwnNames, IsLookedUp, IsAskLookedUp, AreLookedUp};

use crate::raw::{Attr, Out, RawAsk};
use fb_memory::Memory;
use fb_schema::Schema;
use fb_text::Text;

/// The attribute that the keyword names.
pub fn attribute<'a>(schema: &'a Schema, k: &Text) -> Result<Attr<'a>, Memory>
    requires { HaveOwnNames schema.now }
    ensures word { IfOk result (λ attr. word_of attr ≡ k.now) }
    ensures known { IfOk result (λ attr. IsLookedUp schema.now attr) }
{
    match schema.named(k) {
        Some(attribute) => Ok(Attr::Known(attribute)),
        None => Ok(Attr::Unknown(k.copy()?)),
    }
}

/// Whether its values are entities.
pub fn has_ref(schema: &Schema, attr: &Attr<'_>) -> bool
    requires { IsLookedUp schema.now attr.now }
    ensures { result ≡ model.has_ref schema.now (word_of attr.now) }
{
    match attr {
        Attr::Known(attribute) => attribute.is_ref(),
        Attr::Unknown(_) => false,
    }
}

/// Whether an entity may have several values of it.
pub fn has_many(schema: &Schema, attr: &Attr<'_>) -> bool
    requires { IsLookedUp schema.now attr.now }
    ensures { result ≡ model.has_many schema.now (word_of attr.now) }
{
    match attr {
        Attr::Known(attribute) => attribute.many,
        Attr::Unknown(_) => false,
    }
}

/// Whether its values are parts of their entities.
pub fn has_parts(schema: &Schema, attr: &Attr<'_>) -> bool
    requires { IsLookedUp schema.now attr.now }
    ensures { result ≡ model.has_parts schema.now (word_of attr.now) }
{
    match attr {
        Attr::Known(attribute) => attribute.component,
        Attr::Unknown(_) => false,
    }
}

/// Whether a value has one entity at most.
pub fn is_unique(schema: &Schema, attr: &Attr<'_>) -> bool
    requires { IsLookedUp schema.now attr.now }
    ensures { result ≡ model.has_uniqueness schema.now (word_of attr.now) }
{
    match attr {
        Attr::Known(attribute) => attribute.is_unique(),
        Attr::Unknown(_) => false,
    }
}

/// Whether a value of the attribute that the keyword names has one entity at most.
pub fn has_uniqueness(schema: &Schema, k: &Text) -> bool
    ensures { result ≡ model.has_uniqueness schema.now k.now }
{
    match schema.named(k) {
        Some(attribute) => attribute.is_unique(),
        None => false,
    }
}

/// Adds an ask at the end.
pub fn push<'a>(schema: &Schema, out: &mut Out<'a>, raw: RawAsk<'a>) -> Result<(), Memory>
    requires known { AreLookedUp schema.now out.old }
    requires raw_known { IsAskLookedUp schema.now raw }
    ensures asks { (all : List model_LookupRef) → IfOk result
        (λ _. model_asks all out.new ≡ model_asks all out.old ++ model_ask all raw.entry ∷ []) }
    ensures lookups { IfOk result (λ _. out.new.lookups ≡ out.old.lookups) }
    ensures next { IfOk result (λ _. out.new.next ≡ out.old.next) }
    ensures known { IfOk result (λ _. AreLookedUp schema.now out.new) }
{
    out.raws.push(raw)?;
    Ok(())
}
