//! The tree of an entity. It recurses as deep as maps may be inside one another.
ghost use Rattle.std.specs.Prelude.{◌≡◌, ◌∷◌, ◌&&◌, ◌==◌, [], not, map, fold, drop, List, ℕ, if◌then◌else◌, IfOk};
ghost use Rattle.edn_form.specs.View.{form_of, pairs_of};
ghost use Rattle.fb_model.specs.Facts.{facts as facts_of};
ghost use Rattle.pull_model.specs.Found as finding;
ghost use Rattle.pull_model.specs.Found.{Db as Facts};
ghost use Rattle.pull_model.specs.Made as made;
ghost use Rattle.pull_model.specs.Patterns as patterns;
ghost use Rattle.pull_model.specs.Tree as model;
ghost use Rattle.pull_pattern.specs.View.{model_pattern, pattern_of, model_item, model_options, model_below};
ghost use Rattle.fb_pull.specs.Below.{made_by};
ghost use Rattle.fb_pull.specs.Attributes.{IsOwn};
ghost use Rattle.fb_pull.specs.Finding.{CanBeSought, Finds, name_sought};
ghost use Rattle.fb_pull.specs.Paths.{path_above};
ghost use Rattle.fb_pull.specs.Stands.{IsAt, HasNear, made_at, inside_at, with_other};
ghost use Rattle.fb_pull.specs.Making.{Makes, MakesInside, MakesSeveral, Adds, IsInside, with_own};
ghost use Rattle.fb_pull.specs.Views.{Sees};

use crate::below::{Inner, inner_of, usual};
use crate::found::{Found, Sought, found_of};
use crate::keys::Key;
use crate::made::{Inside, Limits, Pulled, Several, collected, number, or_default, stub};
use crate::names::attributes_of_entity;
use crate::near::{Near, at_hand};
use crate::paths::Path;
use crate::stops::Stop;
use edn_form::Edn;
use fb_db::Db;
use fb_memory::Memory;
use fb_preds::Selector;
use fb_schema::Attribute;
use fb_text::Text;
use pull_pattern::{Below, Item, Name, Options, Pattern, is_reversed};
use std::alloc::Global;

/// What a pull walks.
#[derive(Drop)]
pub struct Walk<'a, S> {
    pub alloc: Global,
    pub db: &'a Db<S>,
}

/// Where it is: at an entity, with what is at hand of it, and the path that led to it, which begins with the entity itself.
#[derive(Drop)]
struct Stand<'a, 'd, 'p> {
    pattern: &'a Pattern,
    e: u64,
    near: Near<'d>,
    path: Path<'p>,
    limits: Limits,
}

/// An item for an attribute.
#[derive(Clone, Copy)]
struct Asked<'a> {
    place: usize,
    sought: Sought<'a>,
    options: &'a Options,
    below: &'a Below,
}

/// The tree of the entity under the pattern, where `above` led to it.
#[cycle(tree)]
pub fn tree<'p, S: Selector>(
    walk: &Walk<'_, S>,
    pattern: &Pattern,
    above: Option<&'p Path<'p>>,
    e: u64,
    limits: Limits,
) -> Result<Pulled, Stop>
    ensures { (facts : Facts) → Sees walk.now.db.now (S.selects walk.now.db.now.filter) facts
        → Makes (model.tree limits.depth facts (model_pattern pattern.now) (path_above above.entry) e)
        limits result }
{
    if limits.depth == 0 || limits.maps == 0 {
        return Err(Stop::TooLarge);
    }
    let near = at_hand(walk.alloc, walk.db, e, pattern.items())?;
    let path = Path::to(e, above);
    let at = Stand {
        pattern,
        e,
        near,
        path,
        limits: Limits {
            depth: limits.depth - 1,
            maps: limits.maps - 1,
        },
    };
    let inside = pairs(walk, &at)?;
    Ok(Pulled {
        maps: inside.maps.saturating_add(1),
        form: inside.map(),
    })
}

/// The pairs of the entity's map.
#[cycle(tree)]
fn pairs<S: Selector>(walk: &Walk<'_, S>, at: &Stand<'_, '_, '_>) -> Result<Inside, Stop>
    requires path { IsAt at.now }
    requires near { HasNear walk.now.db.now (S.selects walk.now.db.now.filter) at.now }
    ensures { (facts : Facts) → Sees walk.now.db.now (S.selects walk.now.db.now.filter) facts
        → MakesInside (inside_at at.now facts) at.now.limits result }
{
    let items = at.pattern.items();
    let mut inside = Inside::none(walk.alloc);
    for (place, item) in items.iter().enumerate() {
        add_item(walk, at, &mut inside, place, item)?;
    }
    Ok(inside)
}

/// Adds the pairs of an item.
#[cycle(tree)]
fn add_item<S: Selector>(
    walk: &Walk<'_, S>,
    at: &Stand<'_, '_, '_>,
    inside: &mut Inside,
    place: usize,
    item: &Item,
) -> Result<(), Stop>
    requires path { IsAt at.now }
    requires near { HasNear walk.now.db.now (S.selects walk.now.db.now.filter) at.now }
    ensures { (facts : Facts) → Sees walk.now.db.now (S.selects walk.now.db.now.filter) facts
        → (before : made.Inside) → IsInside before at.now.limits inside.old
        → Adds (fold (model.with_item (made_at at.now facts)) before
        (model.items_from facts at.now.e (model_pattern at.now.pattern.now) place
        (patterns.one (model_item item.now)))) at.now.limits inside.new result }
{
    match item {
        Item::Wildcard => add_everything(walk, at, inside, place),
        Item::Own(options) => Ok(add_own(walk.alloc, inside, at.e, options)?),
        Item::Attribute {
            name,
            options,
            below,
        } => {
            let asked = Asked {
                place,
                sought: Sought::Named(name),
                options,
                below,
            };
            add_attribute(walk, at, inside, &asked)
        }
    }
}

/// Adds the entity's number, and its attributes for which the pattern has no item.
#[cycle(tree)]
fn add_everything<S: Selector>(
    walk: &Walk<'_, S>,
    at: &Stand<'_, '_, '_>,
    inside: &mut Inside,
    place: usize,
) -> Result<(), Stop>
    requires path { IsAt at.now }
    requires near { HasNear walk.now.db.now (S.selects walk.now.db.now.filter) at.now }
    ensures { (facts : Facts) → Sees walk.now.db.now (S.selects walk.now.db.now.filter) facts
        → (before : made.Inside) → IsInside before at.now.limits inside.old
        → Adds (fold (model.with_item (made_at at.now facts)) before
        (map (λ i. (place, i))
        (model.wildcard_items facts at.now.e (model_pattern at.now.pattern.now))))
        at.now.limits inside.new result }
{
    add_own(walk.alloc, inside, at.e, &Options::none())?;
    let attributes = attributes_of_entity(walk.alloc, walk.db, &at.near, at.e)?;
    for attribute in &attributes {
        add_other(walk, at, inside, place, *attribute)?;
    }
    Ok(())
}

/// Adds what the attribute gives, if the pattern has no item for it.
#[cycle(tree)]
fn add_other<S: Selector>(
    walk: &Walk<'_, S>,
    at: &Stand<'_, '_, '_>,
    inside: &mut Inside,
    place: usize,
    attribute: &Attribute,
) -> Result<(), Stop>
    requires path { IsAt at.now }
    requires near { HasNear walk.now.db.now (S.selects walk.now.db.now.filter) at.now }
    requires own { IsOwn (facts_of walk.now.db.now.snapshot.entries) attribute.now }
    ensures { (facts : Facts) → Sees walk.now.db.now (S.selects walk.now.db.now.filter) facts
        → (before : made.Inside) → IsInside before at.now.limits inside.old
        → Adds (if model.has_item_for attribute.now.ident (model_pattern at.now.pattern.now)
        then before else with_other at.now facts before place attribute.now.ident)
        at.now.limits inside.new result }
{
    if has_item_for(&attribute.ident, at.pattern.items()) {
        return Ok(());
    }
    if is_reversed(attribute.ident.as_str()) {
        return add_meant(walk, at, inside, place, &attribute.ident);
    }
    add_sought(walk, at, inside, place, Sought::Own(attribute))
}

/// Adds what the name means, which may be another attribute than the one that has it as its own.
#[cycle(tree)]
fn add_meant<S: Selector>(
    walk: &Walk<'_, S>,
    at: &Stand<'_, '_, '_>,
    inside: &mut Inside,
    place: usize,
    name: &Text,
) -> Result<(), Stop>
    requires path { IsAt at.now }
    requires near { HasNear walk.now.db.now (S.selects walk.now.db.now.filter) at.now }
    ensures { (facts : Facts) → Sees walk.now.db.now (S.selects walk.now.db.now.filter) facts
        → (before : made.Inside) → IsInside before at.now.limits inside.old
        → Adds (with_other at.now facts before place name.now) at.now.limits inside.new result }
{
    let name = Name::of(walk.alloc, name)?;
    add_sought(walk, at, inside, place, Sought::Named(&name))
}

/// Adds what is sought where nothing else is said of it.
#[cycle(tree)]
fn add_sought<S: Selector>(
    walk: &Walk<'_, S>,
    at: &Stand<'_, '_, '_>,
    inside: &mut Inside,
    place: usize,
    sought: Sought<'_>,
) -> Result<(), Stop>
    requires path { IsAt at.now }
    requires near { HasNear walk.now.db.now (S.selects walk.now.db.now.filter) at.now }
    requires own { CanBeSought (facts_of walk.now.db.now.snapshot.entries) sought }
    ensures { (facts : Facts) → Sees walk.now.db.now (S.selects walk.now.db.now.filter) facts
        → (before : made.Inside) → IsInside before at.now.limits inside.old
        → Adds (with_other at.now facts before place (name_sought sought.entry)) at.now.limits
        inside.new result }
{
    let asked = Asked {
        place,
        sought,
        options: &Options::none(),
        below: &usual(),
    };
    add_attribute(walk, at, inside, &asked)
}

/// Adds what the attribute gives, if its key is not there yet.
#[cycle(tree)]
fn add_attribute<S: Selector>(
    walk: &Walk<'_, S>,
    at: &Stand<'_, '_, '_>,
    inside: &mut Inside,
    asked: &Asked<'_>,
) -> Result<(), Stop>
    requires path { IsAt at.now }
    requires near { HasNear walk.now.db.now (S.selects walk.now.db.now.filter) at.now }
    requires own { CanBeSought (facts_of walk.now.db.now.snapshot.entries) asked.now.sought }
    ensures { (facts : Facts) → Sees walk.now.db.now (S.selects walk.now.db.now.filter) facts
        → (before : made.Inside) → IsInside before at.now.limits inside.old
        → Adds (model.with_item (made_at at.now facts) before (
          asked.now.place,
          patterns.attribute (name_sought asked.now.sought) (model_options asked.now.options.now)
              (model_below asked.now.below.now),
        )) at.now.limits inside.new result }
{
    let key = Key::of(asked.sought.name(), asked.options);
    if key.is_in(&inside.pairs) {
        return Ok(());
    }
    let left = at.limits.maps.saturating_sub(inside.maps);
    let told = value(walk, at, asked, left)?;
    let form = or_default(told.form, &asked.options.default)?;
    let maps = told.maps;
    inside.add(key.form()?, Pulled { form, maps })?;
    Ok(())
}

/// What the attribute gives, where so many maps may still be made.
#[cycle(tree)]
fn value<S: Selector>(
    walk: &Walk<'_, S>,
    at: &Stand<'_, '_, '_>,
    asked: &Asked<'_>,
    left: u32,
) -> Result<Pulled, Stop>
    requires near { HasNear walk.now.db.now (S.selects walk.now.db.now.filter) at.now }
    requires own { CanBeSought (facts_of walk.now.db.now.snapshot.entries) asked.now.sought }
    ensures { (facts : Facts) → Sees walk.now.db.now (S.selects walk.now.db.now.filter) facts
        → Makes (model.value_of (model.tree at.now.limits.depth facts)
        (model_pattern at.now.pattern.now) asked.now.place at.now.path
        (model_options asked.now.options.now) (model_below asked.now.below.now)
        (finding.found facts at.now.e (name_sought asked.now.sought)))
        (record { depth = at.now.limits.depth; maps = left }) result }
{
    match found_of(
        walk.alloc,
        walk.db,
        &at.near,
        at.e,
        asked.sought,
        asked.options,
        left,
    )? {
        Found::Absent => Ok(Pulled {
            form: None,
            maps: 0,
        }),
        Found::Value(form) => Ok(Pulled { form, maps: 0 }),
        Found::Values(forms) => Ok(Pulled {
            form: collected(true, forms),
            maps: 0,
        }),
        Found::Entities {
            several,
            parts,
            list,
        } => {
            let inner = inner_of(walk.alloc, at.pattern, asked.place, asked.below, parts)?;
            let limits = Limits {
                depth: at.limits.depth,
                maps: left,
            };
            let all = all_told(walk, &at.path, &inner, &list, limits)?;
            Ok(Pulled {
                form: collected(several, all.forms),
                maps: all.maps,
            })
        }
    }
}

/// What a pull gives of each of the entities.
#[cycle(tree)]
fn all_told<'p, S: Selector>(
    walk: &Walk<'_, S>,
    path: &'p Path<'p>,
    inner: &Inner,
    entities: &[u64],
    limits: Limits,
) -> Result<Several, Stop>
    ensures { (facts : Facts) → Sees walk.now.db.now (S.selects walk.now.db.now.filter) facts
        → MakesSeveral
        (map (made_by (model.tree limits.depth facts) inner.now path.now) entities.now)
        limits result }
{
    let mut all = Several::none(walk.alloc);
    for n in entities {
        let left = Limits {
            depth: limits.depth,
            maps: limits.maps.saturating_sub(all.maps),
        };
        let told = told(walk, path, inner, *n, left)?;
        all.add(told)?;
    }
    Ok(all)
}

/// What a pull gives of an entity.
#[cycle(tree)]
fn told<'p, S: Selector>(
    walk: &Walk<'_, S>,
    path: &'p Path<'p>,
    inner: &Inner,
    n: u64,
    limits: Limits,
) -> Result<Pulled, Stop>
    ensures { (facts : Facts) → Sees walk.now.db.now (S.selects walk.now.db.now.filter) facts
        → Makes (made_by (model.tree limits.depth facts) inner.now path.now n) limits result }
{
    match inner {
        Inner::Number => number_alone(walk.alloc, n, limits),
        Inner::Along(_) if path.has(n) => number_alone(walk.alloc, n, limits),
        Inner::Along(pattern) => tree(walk, pattern, Some(path), n, limits),
        Inner::Apart(pattern) => tree(walk, pattern, None, n, limits),
    }
}

/// A map of the entity's number alone.
fn number_alone(alloc: Global, n: u64, limits: Limits) -> Result<Pulled, Stop>
    ensures { Makes (made.stub n) limits result }
{
    if limits.depth == 0 || limits.maps == 0 {
        return Err(Stop::TooLarge);
    }
    Ok(Pulled {
        form: Some(stub(alloc, n)?),
        maps: 1,
    })
}

/// Adds the entity's number, if the key is not there yet.
fn add_own(alloc: Global, inside: &mut Inside, e: u64, options: &Options) -> Result<(), Memory>
    ensures pairs { IfOk result (λ _. pairs_of inside.new.pairs.items
        ≡ with_own (pairs_of inside.old.pairs.items) (model_options options.now) e) }
    ensures maps { IfOk result (λ _. inside.new.maps ≡ inside.old.maps) }
{
    let name = Text::of(alloc, "db/id")?;
    let key = Key::of(&name, options);
    if key.is_in(&inside.pairs) {
        return Ok(());
    }
    inside.pairs.push((key.form()?, number(e)?))?;
    Ok(())
}

fn has_item_for(name: &Text, items: &[Item]) -> bool
    ensures { result ≡ model.has_item_for name.now (pattern_of items.now) }
{
    for item in items {
        if is_for(item, name) {
            return true;
        }
    }
    false
}

fn is_for(item: &Item, name: &Text) -> bool
    ensures { result ≡ model.has_item_for name.now (patterns.one (model_item item.now)) }
{
    match item {
        Item::Attribute { name: other, .. } => other.written().as_str() == name.as_str(),
        _ => false,
    }
}
