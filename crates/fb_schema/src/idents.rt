//! The entities of each ident.
ghost use Rattle.std.specs.Prelude.{◌≡◌, ℕ, List, ◌++◌, ◌∷◌, [], ◌==◌, if◌then◌else◌, is_some, IfOk};
ghost use Rattle.std.specs.Ordering.{is_eq, nat_cmp};
ghost use Rattle.shared_map.specs.Entries.{get, first_from, IsRising};
ghost use Rattle.std.specs.Option.{option_map};
ghost use Rattle.fb_values.specs.declared.facts.Datom.{Datom};
ghost use Rattle.fb_model.specs.Facts.{standing};
ghost use Rattle.fb_model.specs.Schema.{named};
ghost use Rattle.fb_schema.specs.Naming.{HasNames, is_name_of, name_cmp};

use fb_chunks::Share;
use fb_memory::Memory;
use fb_numbers::IDENT;
use fb_text::Text;
use fb_values::{Datom, Value};
use shared_map::{Query, SharedMap};
use std::alloc::Global;
use std::cmp::Ordering;
use std::marker::Model;

/// An ident as a key, by its length and then by its bytes: most idents are told apart with no look at their bytes.
#[derive(Drop)]
pub struct Name {
    text: Text,
}

impl Model for Name {
    ghost use Rattle.std.specs.Prelude.{List, ℕ};

    ghost Value = { List ℕ };

    ghost view = { λ name. name.text };
}

impl PartialEq for Name {
    ghost use Rattle.std.specs.Ordering.{eq_by_cmp};
    ghost use Rattle.std.specs.Cmp.{eq_by_cmp_equiv, partial_equiv_from_equiv};
    ghost use Rattle.fb_schema.specs.Naming.{name_cmp, name_cmp_total};

    ghost eq = { eq_by_cmp name_cmp };

    ghost laws = { partial_equiv_from_equiv (eq_by_cmp_equiv name_cmp_total) };

    fn eq(&self, other: &Name) -> bool {
        self.cmp(other) == Ordering::Equal
    }
}

impl Eq for Name {
    ghost use Rattle.std.specs.Cmp.{eq_by_cmp_equiv};
    ghost use Rattle.fb_schema.specs.Naming.{name_cmp_total};

    ghost laws = { eq_by_cmp_equiv name_cmp_total };
}

impl PartialOrd for Name {
    ghost use Rattle.std.specs.Ordering.{as_partial_cmp};
    ghost use Rattle.std.specs.Cmp.{partial_order_from_total};
    ghost use Rattle.fb_schema.specs.Naming.{name_cmp, name_cmp_total};

    ghost partial_cmp = { as_partial_cmp name_cmp };

    ghost laws = { partial_order_from_total name_cmp_total };

    fn partial_cmp(&self, other: &Name) -> Option<Ordering> {
        Some(self.cmp(other))
    }
}

impl Ord for Name {
    ghost use Rattle.std.specs.Prelude.{refl};
    ghost use Rattle.fb_schema.specs.Naming.{name_cmp, name_cmp_total};

    ghost cmp = { name_cmp };

    ghost total = { name_cmp_total };

    ghost matches_partial_cmp = { λ x y. refl };

    ghost matches_eq = { λ x y. refl };

    fn cmp(&self, other: &Name) -> Ordering {
        compared(&self.text, &other.text)
    }
}

impl Query<Name> for Text {
    ghost key = { λ text. text };

    fn compare(&self, other: &Name) -> Ordering {
        compared(self, &other.text)
    }
}

fn compared(x: &Text, y: &Text) -> Ordering
    ensures { result ≡ name_cmp x.now y.now }
{
    let (x, y) = (x.as_str(), y.as_str());
    match x.len().cmp(&y.len()) {
        Ordering::Equal => x.cmp(y),
        lengths => lengths,
    }
}

/// The entities of each ident.
#[derive(Drop)]
pub struct Names {
    alloc: Global,
    by_name: SharedMap<Name, SharedMap<u64, ()>>,
}

impl Model for Names {
    ghost use Rattle.std.specs.Prelude.{List, ℕ};

    ghost Value = { List (List ℕ × List (ℕ × Unit {0})) };

    ghost view = { λ names. names.by_name };
}

impl Names {
    pub fn none(alloc: Global) -> Result<Names, Memory>
        ensures { IfOk result (λ names. HasNames names []) }
    {
        Ok(Names {
            alloc,
            by_name: SharedMap::new(alloc)?,
        })
    }

    /// The same names, at the cost of a reference count.
    pub fn share(&self) -> Result<Names, Memory>
        ensures { IfOk result (λ names. names ≡ self.now) }
    {
        Ok(Names {
            alloc: self.alloc,
            by_name: self.by_name.share()?,
        })
    }

    /// The least entity of an ident.
    pub fn entity(&self, ident: &Text) -> Option<u64>
        ensures { (facts : List Datom) → HasNames self.now facts
            → result ≡ named facts ident.now }
    {
        match self.by_name.get_by(ident) {
            Some(entities) => least(entities),
            None => None,
        }
    }

    /// What holds after one more datom.
    pub fn with(&self, d: &Datom) -> Result<Names, Memory>
        ensures { IfOk result (λ names. (facts : List Datom) → HasNames self.now facts
            → standing facts ≡ facts → HasNames names (standing (facts ++ d.now ∷ []))) }
    {
        if d.a != IDENT {
            return self.share();
        }
        match &d.v {
            Value::Keyword(name) => self.with_name(name, d.e, d.added),
            _ => self.share(),
        }
    }

    /// With the entity under the name or not.
    fn with_name(&self, name: &Text, e: u64, is_named: bool) -> Result<Names, Memory>
        ensures { IfOk result (λ names. (other : List ℕ) (k : ℕ)
            → is_name_of names other k ≡ (if is_eq (name_cmp name.now other)
            then (if e == k then is_named else is_name_of self.now name.now k)
            else is_name_of self.now other k)) }
    {
        let known = self.entities(name)?;
        let entities = with_member(&known, e, is_named)?;
        let text = name.copy()?;
        let by_name = self.by_name.with(Name { text }, entities)?;
        Ok(Names {
            alloc: self.alloc,
            by_name,
        })
    }

    fn entities(&self, name: &Text) -> Result<SharedMap<u64, ()>, Memory>
        ensures { IfOk result (λ entities. (k : ℕ)
            → is_some (get nat_cmp entities k) ≡ is_name_of self.now name.now k) }
    {
        match self.by_name.get_by(name) {
            Some(entities) => entities.share(),
            None => SharedMap::new(self.alloc),
        }
    }
}

/// The least entity of a set.
fn least(entities: &SharedMap<u64, ()>) -> Option<u64>
    ensures least { result ≡ option_map (λ x. x.0) (first_from nat_cmp 0 entities.now) }
    ensures rising { IsRising nat_cmp entities.now }
{
    entities.first_from(&0).map(|entry| entry.0)
}

/// A set with an entity, or without it.
fn with_member(
    entities: &SharedMap<u64, ()>,
    e: u64,
    is_member: bool,
) -> Result<SharedMap<u64, ()>, Memory>
    ensures { IfOk result (λ new. (k : ℕ) → is_some (get nat_cmp new k)
        ≡ (if e == k then is_member else is_some (get nat_cmp entities.now k))) }
{
    if is_member {
        entities.with(e, ())
    } else {
        entities.without(&e)
    }
}
