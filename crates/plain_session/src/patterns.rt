//! Patterns of a pull as data, which is borrowed from their forms.
use crate::stops::ReadStop;
use edn_form::Edn;
use fb_memory::Memory;
use fb_text::Text;
use std::alloc::Global;

/// The greatest number of values, or of times.
const GREATEST_COUNT: i64 = 2_147_483_647;

const OWN: &str = "db/id";

#[derive(Clone, Copy)]
pub(crate) struct Item<'a> {
    pub(crate) name: Name<'a>,
    /// The key in place of the name.
    pub(crate) renamed: Option<&'a Edn>,
    /// What is given where the attribute is absent.
    pub(crate) default: Option<&'a Edn>,
    /// How many values are given at most, where there is a limit.
    pub(crate) limit: Option<usize>,
    pub(crate) below: Below<'a>,
}

/// What an item gives.
#[derive(Clone, Copy)]
pub(crate) enum Name<'a> {
    /// `*`
    Everything,
    /// `:db/id`
    Own,
    /// An attribute, by its keyword, forward or reversed.
    Attribute(&'a Text),
}

/// What is given of each entity that is found under an attribute.
#[derive(Clone, Copy)]
pub(crate) enum Below<'a> {
    /// Its number, or the whole of it where it is a part.
    Usual,
    /// What this pattern says.
    Under(&'a Edn),
    /// What the pattern that has the item says, this many times at most.
    Times(usize),
    Unlimited,
}

impl<'a> Item<'a> {
    pub(crate) fn plain(name: Name<'a>) -> Item<'a> {
        Item {
            name,
            renamed: None,
            default: None,
            limit: None,
            below: Below::Usual,
        }
    }

    /// The keyword of what it gives, without its colon.
    pub(crate) fn keyword(&self) -> Option<&str> {
        match &self.name {
            Name::Everything => None,
            Name::Own => Some(OWN),
            Name::Attribute(name) => Some(name.as_str()),
        }
    }

    pub(crate) fn is_named(&self, name: &str) -> bool {
        match self.keyword() {
            Some(own) => own == name,
            None => false,
        }
    }
}

/// The items of a pattern, which is refused at its first item that is none, and at 0 where it has none.
#[cycle(read)]
pub(crate) fn read_pattern(alloc: Global, form: &Edn) -> Result<Vec<Item<'_>>, ReadStop> {
    let mut list = Vec::new(alloc);
    if let Edn::Vector(members) = form {
        for (place, member) in members.as_slice().iter().enumerate() {
            if !add_item(alloc, member, &mut list)? {
                return Err(ReadStop::Refused("read/bad-pattern", place));
            }
        }
    }
    if list.is_empty() {
        return Err(ReadStop::Refused("read/bad-pattern", 0));
    }
    Ok(list)
}

/// Adds what the form is: an item, or of a map one for each of its pairs.
#[cycle(read)]
fn add_item<'a>(alloc: Global, form: &'a Edn, list: &mut Vec<Item<'a>>) -> Result<bool, Memory> {
    if let Edn::Map(pairs) = form {
        for (key, value) in pairs.as_slice() {
            let below = below_of(alloc, value)?;
            if !add(list, specification(key, below))? {
                return Ok(false);
            }
        }
        return Ok(!pairs.is_empty());
    }
    add(list, item_in(form))
}

fn add<'a>(list: &mut Vec<Item<'a>>, item: Option<Item<'a>>) -> Result<bool, Memory> {
    let Some(item) = item else {
        return Ok(false);
    };
    list.push(item)?;
    Ok(true)
}

/// A pair of a map: a name other than `:db/id`, and what is given below it.
fn specification<'a>(key: &'a Edn, below: Option<Below<'a>>) -> Option<Item<'a>> {
    let item = item_in(key)?;
    let below = below?;
    match item.name {
        Name::Attribute(_) => Some(Item { below, ..item }),
        _ => None,
    }
}

#[cycle(read)]
fn below_of(alloc: Global, form: &Edn) -> Result<Option<Below<'_>>, Memory> {
    match form {
        Edn::Vector(_) => match read_pattern(alloc, form) {
            Ok(_) => Ok(Some(Below::Under(form))),
            Err(ReadStop::Refused(_, _)) => Ok(None),
            Err(ReadStop::Memory) => Err(Memory),
        },
        Edn::Sym(s) if s.as_str() == "..." => Ok(Some(Below::Unlimited)),
        _ => Ok(count_in(form).map(|n| Below::Times(n))),
    }
}

/// `*`, a name, or a vector of a name and one option or more.
fn item_in(form: &Edn) -> Option<Item<'_>> {
    match form {
        Edn::Sym(s) if s.as_str() == "*" => Some(Item::plain(Name::Everything)),
        Edn::Key(name) => Some(Item::plain(name_in(name))),
        Edn::Vector(members) => with_options(members.as_slice()),
        _ => None,
    }
}

fn name_in(name: &Text) -> Name<'_> {
    if name.as_str() == OWN {
        Name::Own
    } else {
        Name::Attribute(name)
    }
}

fn with_options(members: &[Edn]) -> Option<Item<'_>> {
    let [Edn::Key(name), _, ..] = members else {
        return None;
    };
    let mut item = Item::plain(name_in(name));
    for option in members[1..].chunks(2) {
        item = with_option(item, option)?;
    }
    Some(item)
}

/// An option is given at most once.
fn with_option<'a>(item: Item<'a>, option: &'a [Edn]) -> Option<Item<'a>> {
    let [Edn::Key(word), value] = option else {
        return None;
    };
    match (word.as_str(), value) {
        ("as", Edn::Key(_) | Edn::Str(_)) if item.renamed.is_none() => Some(Item {
            renamed: Some(value),
            ..item
        }),
        ("default", _) if item.default.is_none() => Some(Item {
            default: Some(value),
            ..item
        }),
        ("limit", _) if item.limit.is_none() => Some(Item {
            limit: Some(limit_in(value)?),
            ..item
        }),
        _ => None,
    }
}

/// Nil lifts the limit.
fn limit_in(form: &Edn) -> Option<usize> {
    match form {
        Edn::Nil => Some(usize::MAX),
        _ => count_in(form),
    }
}

fn count_in(form: &Edn) -> Option<usize> {
    match form {
        Edn::Int(n) if 1 <= *n && *n <= GREATEST_COUNT => Some(*n as usize),
        _ => None,
    }
}
