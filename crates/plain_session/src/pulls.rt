//! Pulls: the tree that a pattern gives of an entity, by recursion on how many maps may still stand inside one another.
use crate::found::{Facts, Found, look_up, names_of};
use crate::patterns::{Below, Item, Name, read_pattern};
use crate::replies;
use crate::sight::Sight;
use crate::stops::{ReadStop, or_refused};
use edn_form::{Edn, Items, Pairs};
use fb_memory::Memory;
use fb_text::Text;
use fb_values::{Datom, Order, Value};
use plain_reads::{basis, in_order};
use std::alloc::Global;

/// The most maps of a pull.
const MOST_MAPS: u64 = 65_536;

/// The most maps that may be around one.
const MOST_AROUND: u64 = 256;

const TOO_LARGE: ReadStop = ReadStop::Refused("read/too-large", 0);

/// How many values a pull gives without a limit.
const USUAL_LIMIT: usize = 1000;

/// Where a pull stands.
#[derive(Clone, Copy)]
struct Stand<'a> {
    facts: Facts<'a>,
    /// The pattern.
    items: &'a [Item<'a>],
    /// The entities that led here, the last one first.
    path: &'a [u64],
    /// How many maps may still stand inside one another.
    room: u64,
}

impl Sight<'_> {
    pub(crate) fn pull(&self, pattern: &Edn, entity: &Edn) -> Result<Edn, ReadStop> {
        let items = read_pattern(self.alloc, pattern)?;
        let e = or_refused(self.entity(entity)?, "read/not-an-entity", 2)?;
        if self.window.history {
            return Err(ReadStop::Refused("read/history", 0));
        }
        let tree = self.tree_of(&items, e)?;
        Ok(replies::pull(self.alloc, basis(self.entries), tree)?)
    }

    fn tree_of(&self, items: &[Item<'_>], e: u64) -> Result<Edn, ReadStop> {
        let seen = self.seen_in_order()?;
        let facts = Facts {
            schema: self.facts,
            seen: &seen,
        };
        let mut maps = 0;
        let tree = tree(self.alloc, MOST_AROUND, &facts, items, &[], e, &mut maps)?;
        Ok(tree.unwrap_or(Edn::Nil))
    }

    fn seen_in_order(&self) -> Result<Vec<Datom>, Memory> {
        let seen = self.seen()?;
        in_order(self.alloc, Order::Eavt, &seen)
    }
}

// ---- maps

/// Counts a map more, which was not too deep.
fn count(maps: &mut u64) -> Result<(), ReadStop> {
    *maps = maps.saturating_add(1);
    if *maps > MOST_MAPS {
        return Err(TOO_LARGE);
    }
    Ok(())
}

/// `{:db/id n}`
fn stub(alloc: Global, n: u64, room: u64, maps: &mut u64) -> Result<Option<Edn>, ReadStop> {
    if room == 0 {
        return Err(TOO_LARGE);
    }
    count(maps)?;
    Ok(Some(map_of_number(alloc, n)?))
}

fn map_of_number(alloc: Global, n: u64) -> Result<Edn, Memory> {
    let mut pairs = Vec::new(alloc);
    add_pair_of(
        alloc,
        &Item::plain(Name::Own),
        replies::number(n),
        &mut pairs,
    )?;
    Ok(Edn::Map(Pairs::of(pairs)))
}

/// The tree of the entity e, which was come to by the path `above`.
#[cycle(tree)]
fn tree(
    alloc: Global,
    room: u64,
    facts: &Facts<'_>,
    items: &[Item<'_>],
    above: &[u64],
    e: u64,
    maps: &mut u64,
) -> Result<Option<Edn>, ReadStop> {
    if room == 0 {
        return Err(TOO_LARGE);
    }
    count(maps)?;
    let path = path_to(alloc, e, above)?;
    let at = Stand {
        facts: *facts,
        items,
        path: &path,
        room: room - 1,
    };
    let mut pairs = Vec::new(alloc);
    add_pairs(alloc, &at, e, &mut pairs, maps)?;
    Ok(if pairs.is_empty() {
        None
    } else {
        Some(Edn::Map(Pairs::of(pairs)))
    })
}

fn path_to(alloc: Global, e: u64, above: &[u64]) -> Result<Vec<u64>, Memory> {
    let mut path = Vec::new(alloc);
    path.push(e)?;
    path.extend_from_slice(above)?;
    Ok(path)
}

// ---- items

#[cycle(tree)]
fn add_pairs(
    alloc: Global,
    at: &Stand<'_>,
    e: u64,
    pairs: &mut Vec<(Edn, Edn)>,
    maps: &mut u64,
) -> Result<(), ReadStop> {
    for (place, item) in at.items.iter().enumerate() {
        match item.name {
            Name::Everything => add_everything(alloc, at, e, place, pairs, maps)?,
            _ => add_pair(alloc, at, e, place, item, pairs, maps)?,
        }
    }
    Ok(())
}

/// `*` is `:db/id`, and the attributes of the entity that have no item of their own.
#[cycle(tree)]
fn add_everything(
    alloc: Global,
    at: &Stand<'_>,
    e: u64,
    place: usize,
    pairs: &mut Vec<(Edn, Edn)>,
    maps: &mut u64,
) -> Result<(), ReadStop> {
    add_pair(alloc, at, e, place, &Item::plain(Name::Own), pairs, maps)?;
    let names = names_of(alloc, &at.facts, e)?;
    for name in &names {
        if !at.items.iter().any(|item| item.is_named(name.as_str())) {
            let item = Item::plain(Name::Attribute(name));
            add_pair(alloc, at, e, place, &item, pairs, maps)?;
        }
    }
    Ok(())
}

/// An item whose key stands already is skipped.
#[cycle(tree)]
fn add_pair(
    alloc: Global,
    at: &Stand<'_>,
    e: u64,
    place: usize,
    item: &Item<'_>,
    pairs: &mut Vec<(Edn, Edn)>,
    maps: &mut u64,
) -> Result<(), ReadStop> {
    if has_key(pairs, item) {
        return Ok(());
    }
    match value_of(alloc, at, e, place, item, maps)? {
        Some(value) => Ok(add_pair_of(alloc, item, value, pairs)?),
        None => Ok(()),
    }
}

fn has_key(pairs: &[(Edn, Edn)], item: &Item<'_>) -> bool {
    pairs.iter().any(|(key, _)| is_key_of(key, item))
}

fn is_key_of(key: &Edn, item: &Item<'_>) -> bool {
    match (key, item.renamed) {
        (Edn::Key(key), Some(Edn::Key(renamed))) => key.as_str() == renamed.as_str(),
        (Edn::Str(key), Some(Edn::Str(renamed))) => key.as_str() == renamed.as_str(),
        (Edn::Key(key), None) => item.is_named(key.as_str()),
        _ => false,
    }
}

fn add_pair_of(
    alloc: Global,
    item: &Item<'_>,
    value: Edn,
    pairs: &mut Vec<(Edn, Edn)>,
) -> Result<(), Memory> {
    pairs.push((key_of(alloc, item)?, value))?;
    Ok(())
}

fn key_of(alloc: Global, item: &Item<'_>) -> Result<Edn, Memory> {
    match item.renamed {
        Some(key) => key.copy(),
        None => Ok(Edn::Key(Text::of(alloc, item.keyword().unwrap_or("*"))?)),
    }
}

/// The items with one less for the number of the one at the place, and without it where that is used up.
fn one_less<'a>(alloc: Global, items: &[Item<'a>], place: usize) -> Result<Vec<Item<'a>>, Memory> {
    let mut list = Vec::new(alloc);
    for (other, item) in items.iter().enumerate() {
        match item.below {
            Below::Times(0..=1) if other == place => {}
            Below::Times(n) if other == place => list.push(Item {
                below: Below::Times(n - 1),
                ..*item
            })?,
            _ => list.push(*item)?,
        }
    }
    Ok(list)
}

// ---- values

/// What the item at the place makes, or its default.
#[cycle(tree)]
fn value_of(
    alloc: Global,
    at: &Stand<'_>,
    e: u64,
    place: usize,
    item: &Item<'_>,
    maps: &mut u64,
) -> Result<Option<Edn>, ReadStop> {
    match item.name {
        Name::Everything => Ok(None),
        Name::Own => Ok(Some(replies::number(e))),
        Name::Attribute(name) => {
            let found = look_up(alloc, &at.facts, e, name)?;
            told_or_default(alloc, at, place, item, &found, maps)
        }
    }
}

#[cycle(tree)]
fn told_or_default(
    alloc: Global,
    at: &Stand<'_>,
    place: usize,
    item: &Item<'_>,
    found: &Found,
    maps: &mut u64,
) -> Result<Option<Edn>, ReadStop> {
    match all_told(alloc, at, place, item, found, maps)? {
        Some(form) => Ok(Some(form)),
        None => Ok(default_of(item)?),
    }
}

fn default_of(item: &Item<'_>) -> Result<Option<Edn>, Memory> {
    match item.default {
        Some(default) => Ok(Some(default.copy()?)),
        None => Ok(None),
    }
}

/// The limit comes before what is left out. Several are a vector, where any is left.
#[cycle(tree)]
fn all_told(
    alloc: Global,
    at: &Stand<'_>,
    place: usize,
    item: &Item<'_>,
    found: &Found,
    maps: &mut u64,
) -> Result<Option<Edn>, ReadStop> {
    let mut forms = Vec::new(alloc);
    for v in found.values.iter().take(most_told(item, found)) {
        let form = told(alloc, at, place, &item.below, found.parts, v, maps)?;
        add_told(&mut forms, form)?;
    }
    Ok(if found.several && !forms.is_empty() {
        Some(Edn::Vector(Items::of(forms)))
    } else {
        forms.pop()
    })
}

fn most_told(item: &Item<'_>, found: &Found) -> usize {
    if found.several {
        item.limit.unwrap_or(USUAL_LIMIT)
    } else {
        1
    }
}

fn add_told(forms: &mut Vec<Edn>, form: Option<Edn>) -> Result<(), Memory> {
    if let Some(form) = form {
        forms.push(form)?;
    }
    Ok(())
}

/// A value under the item at the place. A pattern under an attribute has a path of its own.
#[cycle(tree)]
fn told(
    alloc: Global,
    at: &Stand<'_>,
    place: usize,
    below: &Below<'_>,
    parts: bool,
    v: &Value,
    maps: &mut u64,
) -> Result<Option<Edn>, ReadStop> {
    let Value::Ref(n) = v else {
        return Ok(Some(replies::value(v)?));
    };
    match below {
        Below::Usual if parts => whole(alloc, at, *n, maps),
        Below::Usual => stub(alloc, *n, at.room, maps),
        Below::Under(pattern) => tree_under(alloc, at, pattern, *n, maps),
        Below::Times(_) => fewer_times(alloc, at, place, *n, maps),
        Below::Unlimited => unless_met(alloc, at, at.items, *n, maps),
    }
}

#[cycle(tree)]
fn whole(alloc: Global, at: &Stand<'_>, n: u64, maps: &mut u64) -> Result<Option<Edn>, ReadStop> {
    let everything = [Item::plain(Name::Everything)];
    unless_met(alloc, at, &everything, n, maps)
}

#[cycle(tree)]
fn tree_under(
    alloc: Global,
    at: &Stand<'_>,
    pattern: &Edn,
    n: u64,
    maps: &mut u64,
) -> Result<Option<Edn>, ReadStop> {
    let items = read_pattern(alloc, pattern)?;
    tree(alloc, at.room, &at.facts, &items, &[], n, maps)
}

#[cycle(tree)]
fn fewer_times(
    alloc: Global,
    at: &Stand<'_>,
    place: usize,
    n: u64,
    maps: &mut u64,
) -> Result<Option<Edn>, ReadStop> {
    let fewer = one_less(alloc, at.items, place)?;
    unless_met(alloc, at, &fewer, n, maps)
}

/// Of an entity that is met again its number alone is given.
#[cycle(tree)]
fn unless_met(
    alloc: Global,
    at: &Stand<'_>,
    items: &[Item<'_>],
    n: u64,
    maps: &mut u64,
) -> Result<Option<Edn>, ReadStop> {
    if at.path.contains(&n) {
        return stub(alloc, n, at.room, maps);
    }
    tree(alloc, at.room, &at.facts, items, at.path, n, maps)
}
