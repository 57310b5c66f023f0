//! The walk over a transaction: what each form asks, in the order in which a reader meets it.
use crate::forms::name_in;
use crate::links::{Link, has_ref, has_uniqueness};
use crate::lists::list_ask;
use crate::operands::{linked_lookup, linked_part};
use edn_form::{Edn, Items, Pairs};
use fb_memory::Memory;
use fb_values::Datom;
use plain_asks::{Ask, Key, Name, Operand, key_in};
use plain_reads::Attribute;
use std::alloc::Global;

/// What each form of a transaction asks.
pub fn flat<'a>(
    alloc: Global,
    facts: &'a [Datom],
    forms: &'a [Edn],
) -> Result<Vec<Vec<Ask<'a>>>, Memory> {
    let mut lists = Vec::new(alloc);
    let mut maps = 0;
    for f in forms {
        lists.push(form_asks(alloc, facts, f, &mut maps)?)?;
    }
    Ok(lists)
}

/// What the form asks, by the facts before the transaction.
fn form_asks<'a>(
    alloc: Global,
    facts: &'a [Datom],
    f: &'a Edn,
    maps: &mut usize,
) -> Result<Vec<Ask<'a>>, Memory> {
    let mut walk = Walk {
        alloc,
        facts,
        asks: Vec::new(alloc),
        maps: *maps,
    };
    walk.form(f)?;
    *maps = walk.maps;
    Ok(walk.asks)
}

/// A walk over a form.
#[derive(Drop)]
struct Walk<'a> {
    alloc: Global,
    facts: &'a [Datom],
    /// What the form asks as far as it was met.
    asks: Vec<Ask<'a>>,
    /// How many maps were met, in this form and before.
    maps: usize,
}

impl<'a> Walk<'a> {
    fn ask(&mut self, ask: Ask<'a>) -> Result<(), Memory> {
        self.asks.push(ask)?;
        Ok(())
    }

    fn form(&mut self, f: &'a Edn) -> Result<(), Memory> {
        match f {
            Edn::Vector(items) | Edn::List(items) => self.list_form(items.as_slice()),
            Edn::Map(pairs) => self.map_form(pairs),
            _ => Ok(()),
        }
    }

    fn list_form(&mut self, members: &'a [Edn]) -> Result<(), Memory> {
        match list_ask(self.facts, members) {
            Some(ask) => self.ask(ask),
            None => Ok(()),
        }
    }

    fn map_form(&mut self, pairs: &'a Pairs) -> Result<(), Memory> {
        let name = self.name_of_map(pairs);
        self.ask(Ask::Meets(name))?;
        self.pairs(name, pairs)
    }

    // ---- maps

    /// The entity that the map names by `:db/id`, or its number.
    fn name_of_map(&mut self, pairs: &'a Pairs) -> Name<'a> {
        let number = self.maps;
        self.maps = number.saturating_add(1);
        own_name(pairs).unwrap_or(Name::Nameless(number))
    }

    /// What the pairs of a map ask, one after another.
    #[cycle(walk)]
    fn pairs(&mut self, this: Name<'a>, pairs: &'a Pairs) -> Result<(), Memory> {
        for (key, value) in pairs.as_slice() {
            if let Edn::Key(k) = key {
                let key = key_in(self.alloc, self.facts, k)?;
                self.pair(this, key, value)?;
            }
        }
        Ok(())
    }

    /// It mentions its attribute, and under a reversed name the attribute's values have to be entities.
    #[cycle(walk)]
    fn pair(&mut self, this: Name<'a>, key: Key<'a>, value: &'a Edn) -> Result<(), Memory> {
        match key {
            Key::Own => Ok(()),
            Key::Backward(attribute) if !has_ref(&attribute) => self.fault(this, attribute),
            Key::Forward(attribute) => self.linked(
                Link {
                    this,
                    attribute,
                    is_reversed: false,
                },
                value,
            ),
            Key::Backward(attribute) => self.linked(
                Link {
                    this,
                    attribute,
                    is_reversed: true,
                },
                value,
            ),
        }
    }

    /// A link of the entity to itself, under an attribute whose values are no entities.
    fn fault(&mut self, this: Name<'a>, attribute: Option<Attribute<'a>>) -> Result<(), Memory> {
        self.ask(Ask::Mentions(attribute))?;
        self.ask(Ask::Adds(this, attribute, Operand::Entity(this)))
    }

    #[cycle(walk)]
    fn linked(&mut self, link: Link<'a>, value: &'a Edn) -> Result<(), Memory> {
        self.ask(Ask::Mentions(link.attribute))?;
        self.value(link, value)
    }

    // ---- values

    /// What a value asks that stands under a key. Where there may be several, a list is a collection, and so is a vector that
    /// names no entity.
    #[cycle(walk)]
    fn value(&mut self, link: Link<'a>, f: &'a Edn) -> Result<(), Memory> {
        match f {
            Edn::Set(items) => self.members(link, items),
            Edn::List(items) if link.is_many() => self.members(link, items),
            Edn::Vector(items) if self.is_collection(&link, items) => self.members(link, items),
            _ => self.member(link, f),
        }
    }

    fn is_collection(&self, link: &Link<'_>, items: &Items) -> bool {
        link.is_many() && linked_lookup(self.facts, link, items).is_none()
    }

    /// What the members of a collection ask, one after another.
    #[cycle(walk)]
    fn members(&mut self, link: Link<'a>, items: &'a Items) -> Result<(), Memory> {
        for f in items.as_slice() {
            self.member(link, f)?;
        }
        Ok(())
    }

    /// What one value asks. A collection inside one is no value.
    #[cycle(walk)]
    fn member(&mut self, link: Link<'a>, f: &'a Edn) -> Result<(), Memory> {
        match f {
            Edn::Map(pairs) if link.is_ref() => self.inner_map(link, pairs),
            _ => self.ask(link.to(linked_part(self.facts, &link, f))),
        }
    }

    /// What a map asks that is a value: the link, what it lacks, and then its own pairs.
    #[cycle(walk)]
    fn inner_map(&mut self, link: Link<'a>, pairs: &'a Pairs) -> Result<(), Memory> {
        let name = self.name_of_map(pairs);
        self.ask(link.to(Operand::Entity(name)))?;
        if !link.has_parts() && !has_identity(self.alloc, self.facts, pairs)? {
            self.ask(Ask::LacksId)?;
        }
        self.pairs(name, pairs)
    }
}

fn own_name(pairs: &Pairs) -> Option<Name<'_>> {
    for (key, value) in pairs.as_slice() {
        if is_own(key) {
            if let Some(name) = name_in(value) {
                return Some(name);
            }
        }
    }
    None
}

fn is_own(key: &Edn) -> bool {
    match key {
        Edn::Key(k) => k.as_str() == "db/id",
        _ => false,
    }
}

/// Whether the map has `:db/id` or a unique attribute among its keys.
fn has_identity(alloc: Global, facts: &[Datom], pairs: &Pairs) -> Result<bool, Memory> {
    for (key, _) in pairs.as_slice() {
        if let Edn::Key(k) = key {
            if identifies(&key_in(alloc, facts, k)?) {
                return Ok(true);
            }
        }
    }
    Ok(false)
}

fn identifies(key: &Key<'_>) -> bool {
    match key {
        Key::Own => true,
        Key::Forward(attribute) => has_uniqueness(attribute),
        Key::Backward(_) => false,
    }
}
