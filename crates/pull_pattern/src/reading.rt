//! Which form is which pattern, in one pass. It recurses as deep as forms are inside one another.
ghost use Rattle.std.specs.Prelude.{◌≡◌, Some, IfOk, IfErr};
ghost use Rattle.std.specs.Option.{option_map};
ghost use Rattle.edn_model.specs.Form as edn;
ghost use Rattle.edn_form.specs.View.{form_of, forms_of, pairs_of, members, entries};
ghost use Rattle.pull_model.specs.Patterns as model;
ghost use Rattle.pull_model.specs.Reading as reading;
ghost use Rattle.pull_pattern.specs.Answers.{Gives, Refuses, ReadsPattern};
ghost use Rattle.pull_pattern.specs.View.{model_options, model_item, model_below, model_pattern, pattern_of};

use crate::names::Name;
use crate::options::{add_options, count_in};
use crate::patterns::{Below, Item, Options, Pattern};
use crate::stops::{PatternStop, Stop};
use edn_form::{Edn, Items, Pairs};
use fb_memory::Memory;
use fb_text::Text;
use std::alloc::Global;

/// The pattern that the form is.
pub fn read_pattern(alloc: Global, form: &Edn) -> Result<Pattern, PatternStop>
    ensures { ReadsPattern (reading.pattern_in (form_of form.now)) result }
{
    match form {
        Edn::Vector(items) => read_outermost(alloc, items),
        _ => Err(PatternStop::BadPattern { item: 0 }),
    }
}

/// The pattern that a vector of these members is.
fn read_outermost(alloc: Global, items: &Items) -> Result<Pattern, PatternStop>
    ensures { ReadsPattern (reading.pattern_in (edn.vector (edn.forms (forms_of (members items.now)))))
        result }
{
    if items.is_empty() {
        return Err(PatternStop::BadPattern { item: 0 });
    }
    let mut list = Vec::new(alloc);
    for (item, f) in items.as_slice().iter().enumerate() {
        if let Err(stop) = add_item(alloc, f, &mut list) {
            return Err(stop.at(item));
        }
    }
    Ok(Pattern::of(alloc, list)?)
}

/// Adds the items of a pattern.
#[cycle(read)]
fn add_items(alloc: Global, items: &Items, list: &mut Vec<Item>) -> Result<(), Stop>
    ensures added { IfOk result (λ _. Some (pattern_of list.new.items)
        ≡ reading.both (Some (pattern_of list.old.items))
        (reading.items_of (edn.forms (forms_of (members items.now))))) }
    ensures refused { IfErr result (λ stop. Refuses stop
        (reading.items_of (edn.forms (forms_of (members items.now))))) }
{
    for f in items.as_slice() {
        add_item(alloc, f, list)?;
    }
    Ok(())
}

/// Adds the items that a form is: one, or of a map one for each of its pairs.
#[cycle(read)]
fn add_item(alloc: Global, f: &Edn, list: &mut Vec<Item>) -> Result<(), Stop>
    ensures added { IfOk result (λ _. Some (pattern_of list.new.items)
        ≡ reading.both (Some (pattern_of list.old.items)) (reading.item_of (form_of f.now))) }
    ensures refused { IfErr result (λ stop. Refuses stop
        (reading.item_of (form_of f.now))) }
{
    match f {
        Edn::Key(name) => Ok(add(plain_item(alloc, name, Options::none())?, list)?),
        Edn::Sym(s) if s.as_str() == "*" => Ok(add(Item::Wildcard, list)?),
        Edn::Vector(items) => Ok(add(item_with_options(alloc, items.as_slice())?, list)?),
        Edn::Map(pairs) => add_specifications(alloc, pairs, list),
        _ => Err(Stop::OtherForm),
    }
}

#[tactic(auto, using(crate::proofs::Joined::of_append))]
fn add(item: Item, list: &mut Vec<Item>) -> Result<(), Memory>
    ensures { IfOk result (λ _. pattern_of list.new.items
        ≡ model.joined (pattern_of list.old.items) (model.one (model_item item))) }
{
    list.push(item)?;
    Ok(())
}

/// Adds an item for each pair of a map, of which there is at least one.
#[cycle(read)]
fn add_specifications(alloc: Global, pairs: &Pairs, list: &mut Vec<Item>) -> Result<(), Stop>
    ensures added { IfOk result (λ _. Some (pattern_of list.new.items)
        ≡ reading.both (Some (pattern_of list.old.items))
        (reading.if_any (reading.specifications_of (edn.pairs (pairs_of (entries pairs.now)))))) }
    ensures refused { IfErr result (λ stop. Refuses stop
        (reading.if_any (reading.specifications_of (edn.pairs (pairs_of (entries pairs.now)))))) }
{
    if pairs.is_empty() {
        return Err(Stop::OtherForm);
    }
    for (key, value) in pairs.as_slice() {
        add(specification(alloc, value, key)?, list)?;
    }
    Ok(())
}

#[cycle(read)]
fn specification(alloc: Global, value: &Edn, key: &Edn) -> Result<Item, Stop>
    ensures { Gives model_item
        (reading.specification (reading.specified (form_of key.now))
        (reading.below_of (form_of value.now))) result }
{
    let below = below_of(alloc, value)?;
    let item = specified(alloc, key)?;
    with_below(below, item)
}

#[cycle(read)]
fn below_of(alloc: Global, f: &Edn) -> Result<Below, Stop>
    ensures { Gives model_below (reading.below_of (form_of f.now)) result }
{
    match f {
        Edn::Vector(items) => Ok(Below::Under(pattern_below(alloc, items)?)),
        _ => recursion_in(f).ok_or(Stop::OtherForm),
    }
}

/// The pattern of at least one item that a vector is.
#[cycle(read)]
fn pattern_below(alloc: Global, items: &Items) -> Result<Pattern, Stop>
    ensures { Gives model_pattern
        (reading.if_any (reading.items_of (edn.forms (forms_of (members items.now))))) result }
{
    if items.is_empty() {
        return Err(Stop::OtherForm);
    }
    let mut list = Vec::new(alloc);
    add_items(alloc, items, &mut list)?;
    Ok(Pattern::of(alloc, list)?)
}

fn recursion_in(f: &Edn) -> Option<Below>
    ensures { option_map model_below result ≡ reading.recursion_in (form_of f.now) }
{
    match f {
        Edn::Sym(s) if s.as_str() == "..." => Some(Below::Unlimited),
        _ => Some(Below::Times(count_in(f)?)),
    }
}

/// The key of a map specification: a name, or one with options.
fn specified(alloc: Global, f: &Edn) -> Result<Item, Stop>
    ensures { Gives model_item (reading.specified (form_of f.now)) result }
{
    match f {
        Edn::Key(name) => Ok(plain_item(alloc, name, Options::none())?),
        Edn::Vector(items) => item_with_options(alloc, items.as_slice()),
        _ => Err(Stop::OtherForm),
    }
}

/// The item with what is given below it; `:db/id` has nothing below.
fn with_below(below: Below, item: Item) -> Result<Item, Stop>
    ensures { Gives model_item (reading.with_below (model_below below) (model_item item)) result }
{
    match item {
        Item::Attribute {
            name,
            options,
            below: Below::Usual,
        } => Ok(Item::Attribute {
            name,
            options,
            below,
        }),
        _ => Err(Stop::OtherForm),
    }
}

/// A name with one option or more.
fn item_with_options(alloc: Global, forms: &[Edn]) -> Result<Item, Stop>
    ensures { Gives model_item (reading.item_with_options (forms_of forms.now)) result }
{
    let [Edn::Key(name), _, ..] = forms else {
        return Err(Stop::OtherForm);
    };
    let mut options = Options::none();
    add_options(alloc, &mut options, &forms[1..])?;
    Ok(plain_item(alloc, name, options)?)
}

fn plain_item(alloc: Global, name: &Text, options: Options) -> Result<Item, Memory>
    ensures { IfOk result (λ i. model_item i ≡ reading.plain_item name.now (model_options options)) }
{
    if name.as_str() == "db/id" {
        return Ok(Item::Own(options));
    }
    Ok(Item::Attribute {
        name: Name::of(alloc, name)?,
        options,
        below: Below::Usual,
    })
}
