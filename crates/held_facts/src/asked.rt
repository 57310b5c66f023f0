//! What is asked of the facts that hold. Each answer is a range of one of the maps: it begins at the first place where its
//! facts may be, and ends before the first that is not one of them.
ghost use Rattle.std.specs.Prelude.{◌≡◌, [], map, filter, IfOk};
ghost use Rattle.std.specs.List.{list_any, find};
ghost use Rattle.std.specs.Option.{option_map};
ghost use Rattle.fb_values.specs.declared.facts.Value.TheVariants.{Keyword};
ghost use Rattle.fb_model.specs.Facts.{is_of};
ghost use Rattle.fb_model.specs.Schema.{is_about};
ghost use Rattle.fb_facts.specs.FactLists.{is_of_entity, is_ref_to, is_under};
ghost use Rattle.held_facts.specs.FactMaps.{is_with, fact_of_entity, fact_of_attribute, fact_of_value};
ghost use Rattle.held_facts.specs.FactMaps.{facts_by_entity, facts_by_attribute, facts_by_value};

use crate::fact_maps::FactMaps;
use fb_memory::Memory;
use fb_text::Text;
use fb_values::{Datom, Value};
use std::alloc::Global;

impl FactMaps {
    /// Where memory does not allow one reference more to the value's text, everything is walked: a search has to have the
    /// value as a part of a key.
    pub fn holds(&self, e: u64, a: u64, v: &Value) -> bool
        ensures { result ≡ list_any (is_of e a v.now) (facts_by_entity self.now) }
    {
        match v.copy() {
            Ok(v) => self.by_entity.contains_key(&(e, a, v)),
            Err(_) => self.by_entity.keys().any(|place| is_at(place, e, a, v)),
        }
    }

    /// The entity of the first fact with the value. It walks as `holds` does where memory does not allow a search.
    pub fn holder(&self, a: u64, v: &Value) -> Option<u64>
        ensures { result ≡ option_map (λ d. d.e) (find (is_with a v.now) (facts_by_value self.now)) }
    {
        let Ok(start) = v.copy() else {
            let found = self
                .by_value
                .keys()
                .find(|content| has_content(content, a, v))?;
            return Some(found.2);
        };
        let (first, _) = self.by_value.range((start, a, 0)..).next()?;
        has_content(first, a, v).then_some(first.2)
    }

    pub fn values_of(&self, alloc: Global, e: u64, a: u64) -> Result<Vec<Value>, Memory>
        ensures { IfOk result (λ values. values.items
            ≡ map (λ d. d.v) (filter (is_about e a) (facts_by_entity self.now))) }
    {
        let mut values = Vec::new(alloc);
        for (place, _) in self.by_entity.range((e, a, least_value(alloc)?)..) {
            if place.0 != e || place.1 != a {
                break;
            }
            values.push(place.2.copy()?)?;
        }
        Ok(values)
    }

    pub fn facts_of(&self, alloc: Global, e: u64) -> Result<Vec<Datom>, Memory>
        ensures { IfOk result (λ facts. facts.items
            ≡ filter (is_of_entity e) (facts_by_entity self.now)) }
    {
        let mut facts = Vec::new(alloc);
        for (place, t) in self.by_entity.range((e, 0, least_value(alloc)?)..) {
            if place.0 != e {
                break;
            }
            facts.push(fact_of_entity(place, *t)?)?;
        }
        Ok(facts)
    }

    pub fn facts_under(&self, alloc: Global, a: u64) -> Result<Vec<Datom>, Memory>
        ensures { IfOk result (λ facts. facts.items
            ≡ filter (is_under a) (facts_by_attribute self.now)) }
    {
        let mut facts = Vec::new(alloc);
        for (place, t) in self.by_attribute.range((a, 0, least_value(alloc)?)..) {
            if place.0 != a {
                break;
            }
            facts.push(fact_of_attribute(place, *t)?)?;
        }
        Ok(facts)
    }

    pub fn refs_to(&self, alloc: Global, e: u64) -> Result<Vec<Datom>, Memory>
        ensures { IfOk result (λ facts. facts.items
            ≡ filter (is_ref_to e) (facts_by_value self.now)) }
    {
        let mut facts = Vec::new(alloc);
        for (content, t) in self.by_value.range((Value::Ref(e), 0, 0)..) {
            if content.0 != Value::Ref(e) {
                break;
            }
            facts.push(fact_of_value(content, *t)?)?;
        }
        Ok(facts)
    }
}

// ---- the keys

fn is_at(place: &(u64, u64, Value), e: u64, a: u64, v: &Value) -> bool
    ensures { result ≡ is_of e a v.now (fact_of_entity (place.now, 0)) }
{
    place.0 == e && place.1 == a && place.2 == *v
}

fn has_content(content: &(Value, u64, u64), a: u64, v: &Value) -> bool
    ensures { result ≡ is_with a v.now (fact_of_value (content.now, 0)) }
{
    content.1 == a && content.0 == *v
}

fn fact_of_entity(place: &(u64, u64, Value), t: u32) -> Result<Datom, Memory>
    ensures { IfOk result (λ d. d ≡ fact_of_entity (place.now, t)) }
{
    Ok(Datom {
        e: place.0,
        a: place.1,
        v: place.2.copy()?,
        t,
        added: true,
    })
}

fn fact_of_attribute(place: &(u64, u64, Value), t: u32) -> Result<Datom, Memory>
    ensures { IfOk result (λ d. d ≡ fact_of_attribute (place.now, t)) }
{
    Ok(Datom {
        e: place.1,
        a: place.0,
        v: place.2.copy()?,
        t,
        added: true,
    })
}

fn fact_of_value(content: &(Value, u64, u64), t: u32) -> Result<Datom, Memory>
    ensures { IfOk result (λ d. d ≡ fact_of_value (content.now, t)) }
{
    Ok(Datom {
        e: content.2,
        a: content.1,
        v: content.0.copy()?,
        t,
        added: true,
    })
}

/// The value that is below every other one.
fn least_value(alloc: Global) -> Result<Value, Memory>
    ensures { IfOk result (λ v. v ≡ Keyword []) }
{
    Ok(Value::Keyword(Text::of(alloc, "")?))
}
