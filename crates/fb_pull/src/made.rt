//! What a pull makes: forms, with the number of maps that were made for them. Maps that are left out in the end count too.
ghost use Rattle.std.specs.Prelude.{◌≡◌, [], ◌++◌, ◌+◌, min, option_map, IfOk};
ghost use Rattle.std.specs.Arc.{arc_value};
ghost use Rattle.std.specs.Option.{option_or};
ghost use Rattle.edn_form.specs.View.{form_of, forms_of, pairs_of};
ghost use Rattle.edn_values.specs.Values.{form_of_value};
ghost use Rattle.fb_values.specs.declared.facts.Value.TheVariants.{Ref};
ghost use Rattle.pull_model.specs.Made as model;
ghost use Rattle.fb_pull.specs.Made.{form_in};

use edn_form::{Edn, Items, Pairs};
use edn_values::as_edn;
use fb_memory::Memory;
use fb_text::Text;
use fb_values::Value;
use std::alloc::Global;
use std::sync::Arc;

/// What is given in one place.
#[derive(Drop)]
pub struct Pulled {
    /// Nothing where there is nothing to give.
    pub form: Option<Edn>,
    pub maps: u32,
}

/// What is given of several entities.
#[derive(Drop)]
pub struct Several {
    pub forms: Vec<Edn>,
    pub maps: u32,
}

/// The pairs of a map so far.
#[derive(Drop)]
pub struct Inside {
    pub pairs: Vec<(Edn, Edn)>,
    pub maps: u32,
}

/// How many maps may be inside one another from here on, and how many may be made.
#[derive(Clone, Copy)]
pub struct Limits {
    pub depth: u32,
    pub maps: u32,
}

/// `{:db/id n}`
pub fn stub(alloc: Global, n: u64) -> Result<Edn, Memory>
    ensures { IfOk result (λ form. form_of form ≡ model.stub_form n) }
{
    let key = Edn::Key(Text::of(alloc, "db/id")?);
    let mut pairs = Vec::new(alloc);
    pairs.push((key, number(n)?))?;
    Ok(Edn::Map(Pairs::of(pairs)))
}

/// The entity's number.
pub fn number(n: u64) -> Result<Edn, Memory>
    ensures { IfOk result (λ form. form_of form ≡ form_of_value (Ref n)) }
{
    as_edn(&Value::Ref(n))
}

/// A vector, where there may be several, and else the one form.
pub fn collected(several: bool, mut forms: Vec<Edn>) -> Option<Edn>
    ensures { option_map form_of result ≡ model.collected several (forms_of forms.items) }
{
    if forms.is_empty() {
        return None;
    }
    if several {
        return Some(Edn::Vector(Items::of(forms)));
    }
    Some(forms.swap_remove(0))
}

/// The form, or where there is none the default.
pub fn or_default(form: Option<Edn>, default: &Option<Arc<Edn>>) -> Result<Option<Edn>, Memory>
    ensures { IfOk result (λ f. option_map form_of f
        ≡ option_or (option_map form_of form) (option_map (λ d. form_of (arc_value d)) default.now)) }
{
    match (form, default) {
        (Some(form), _) => Ok(Some(form)),
        (None, Some(default)) => Ok(Some(default.copy()?)),
        (None, None) => Ok(None),
    }
}

impl Several {
    pub fn none(alloc: Global) -> Several
        ensures forms { result.forms.items ≡ [] }
        ensures maps { result.maps ≡ 0 }
    {
        Several {
            forms: Vec::new(alloc),
            maps: 0,
        }
    }

    /// Adds what is given of one more entity.
    pub fn add(&mut self, told: Pulled) -> Result<(), Memory>
        ensures forms { IfOk result (λ _. forms_of self.new.forms.items
            ≡ forms_of self.old.forms.items ++ form_in (option_map form_of told.form)) }
        ensures maps { IfOk result
            (λ _. self.new.maps ≡ min (self.old.maps + told.maps) u32.MAX) }
    {
        let Pulled { form, maps } = told;
        add_form(&mut self.forms, form)?;
        self.maps = self.maps.saturating_add(maps);
        Ok(())
    }
}

impl Inside {
    pub fn none(alloc: Global) -> Inside
        ensures pairs { result.pairs.items ≡ [] }
        ensures maps { result.maps ≡ 0 }
    {
        Inside {
            pairs: Vec::new(alloc),
            maps: 0,
        }
    }

    /// Adds what is given under the key, a pair where that is something.
    pub fn add(&mut self, key: Edn, told: Pulled) -> Result<(), Memory>
        ensures pairs { IfOk result (λ _. pairs_of self.new.pairs.items
            ≡ pairs_of self.old.pairs.items
            ++ model.pair_of (form_of key) (option_map form_of told.form)) }
        ensures maps { IfOk result
            (λ _. self.new.maps ≡ min (self.old.maps + told.maps) u32.MAX) }
    {
        let Pulled { form, maps } = told;
        add_pair(&mut self.pairs, key, form)?;
        self.maps = self.maps.saturating_add(maps);
        Ok(())
    }

    /// The map, which is nothing where it has no pair.
    pub fn map(self) -> Option<Edn>
        ensures { option_map form_of result ≡ model.map_of (pairs_of self.pairs.items) }
    {
        if self.pairs.is_empty() {
            return None;
        }
        Some(Edn::Map(Pairs::of(self.pairs)))
    }
}

fn add_pair(pairs: &mut Vec<(Edn, Edn)>, key: Edn, value: Option<Edn>) -> Result<(), Memory>
    ensures { IfOk result (λ _. pairs_of pairs.new.items
        ≡ pairs_of pairs.old.items ++ model.pair_of (form_of key) (option_map form_of value)) }
{
    if let Some(value) = value {
        pairs.push((key, value))?;
    }
    Ok(())
}

fn add_form(forms: &mut Vec<Edn>, form: Option<Edn>) -> Result<(), Memory>
    ensures { IfOk result (λ _. forms_of forms.new.items
        ≡ forms_of forms.old.items ++ form_in (option_map form_of form)) }
{
    if let Some(form) = form {
        forms.push(form)?;
    }
    Ok(())
}
