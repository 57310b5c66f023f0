//! Which attributes the indexes hold. EAVT and AEVT hold every attribute, AVET and VAET some.
#![tactic(auto)]

ghost use Rattle.std.specs.Prelude.{◌≡◌, ℕ, [], ◌↔◌, ◌==◌, IsTrue, IfOk, Contains, if◌then◌else◌};
ghost use Rattle.std.specs.List.{list_any};
ghost use Rattle.std.specs.Map.{keys_of};
ghost use Rattle.fb_covers.specs.Coverage.{StaysIn, covers};
ghost use Rattle.fb_values.specs.declared.indexes.Order.TheVariants.{Avet, Vaet};

use fb_chunks::Share;
use fb_memory::Memory;
use fb_values::Order;
use shared_map::SharedMap;
use std::alloc::Global;
use std::marker::Model;

/// The attributes that AVET holds, and those that VAET holds. Other coverages share most of them.
#[derive(Drop)]
pub struct Covers {
    avet: SharedMap<u64, ()>,
    vaet: SharedMap<u64, ()>,
}

impl Model for Covers {
    ghost use Rattle.std.specs.Map.{keys_of};
    ghost use Rattle.fb_covers.specs.Coverage.{Coverage};

    ghost Value = { Coverage };

    ghost view = { λ c. record {
      avet = keys_of c.avet;
      vaet = keys_of c.vaet;
    } };
}

/// Which of the two hold an attribute.
#[derive(Clone, Copy)]
pub struct Held {
    pub avet: bool,
    pub vaet: bool,
}

impl Covers {
    /// No attributes.
    pub fn none(alloc: Global) -> Result<Covers, Memory>
        ensures avet { IfOk result (λ c. c.avet ≡ []) }
        ensures vaet { IfOk result (λ c. c.vaet ≡ []) }
    {
        let (avet, vaet) = (SharedMap::new(alloc)?, SharedMap::new(alloc)?);
        Ok(Covers { avet, vaet })
    }

    /// The attributes in any order.
    pub fn of(alloc: Global, avet: Vec<u64>, vaet: Vec<u64>) -> Result<Covers, Memory>
        ensures avet { IfOk result
            (λ c. (a : ℕ) → IsTrue (covers c Avet a) ↔ Contains avet.items a) }
        ensures vaet { IfOk result
            (λ c. (a : ℕ) → IsTrue (covers c Vaet a) ↔ Contains vaet.items a) }
    {
        let (avet, vaet) = (set_of(alloc, &avet)?, set_of(alloc, &vaet)?);
        Ok(Covers { avet, vaet })
    }

    /// With the attribute held or not.
    pub fn with(&self, attribute: u64, held: Held) -> Result<Covers, Memory>
        ensures avet { IfOk result (λ c. (a : ℕ) → covers c Avet a
            ≡ (if attribute == a then held.avet else covers self.now Avet a)) }
        ensures vaet { IfOk result (λ c. (a : ℕ) → covers c Vaet a
            ≡ (if attribute == a then held.vaet else covers self.now Vaet a)) }
    {
        let avet = with_member(&self.avet, attribute, held.avet)?;
        let vaet = with_member(&self.vaet, attribute, held.vaet)?;
        Ok(Covers { avet, vaet })
    }

    /// Whether the order's index holds the attribute.
    pub fn holds(&self, order: Order, attribute: u64) -> bool
        ensures { result ≡ covers self.now order attribute }
    {
        match order {
            Order::Eavt | Order::Aevt => true,
            Order::Avet => contains(&self.avet, attribute),
            Order::Vaet => contains(&self.vaet, attribute),
        }
    }

    /// The same attributes, which are shared.
    pub fn share(&self) -> Result<Covers, Memory>
        ensures { IfOk result (λ c. c ≡ self.now) }
    {
        let (avet, vaet) = (self.avet.share()?, self.vaet.share()?);
        Ok(Covers { avet, vaet })
    }

    /// Whether the order's index holds by the newer coverage each attribute that it holds by this one.
    pub fn stays_in(&self, newer: &Covers, order: Order) -> bool
        ensures { IsTrue result ↔ StaysIn order self.now newer.now }
    {
        match order {
            Order::Avet => is_part_of(&self.avet, &newer.avet),
            Order::Vaet => is_part_of(&self.vaet, &newer.vaet),
            // These hold every attribute.
            _ => true,
        }
    }
}

fn set_of(alloc: Global, attributes: &[u64]) -> Result<SharedMap<u64, ()>, Memory>
    ensures { IfOk result (λ set. (a : ℕ)
        → list_any (λ b. a == b) (keys_of set) ≡ list_any (λ b. a == b) attributes.now) }
{
    let mut set = SharedMap::new(alloc)?;
    for a in attributes {
        set = set.with(*a, ())?;
    }
    Ok(set)
}

/// A set with an attribute, or without it.
fn with_member(
    set: &SharedMap<u64, ()>,
    attribute: u64,
    is_member: bool,
) -> Result<SharedMap<u64, ()>, Memory>
    ensures { IfOk result (λ new. (a : ℕ) → list_any (λ b. a == b) (keys_of new)
        ≡ (if attribute == a then is_member else list_any (λ b. a == b) (keys_of set.now))) }
{
    if is_member == contains(set, attribute) {
        return set.share();
    }
    if is_member {
        set.with(attribute, ())
    } else {
        set.without(&attribute)
    }
}

fn is_part_of(set: &SharedMap<u64, ()>, other: &SharedMap<u64, ()>) -> bool
    ensures { IsTrue result ↔ ((a : ℕ) → IsTrue (list_any (λ b. a == b) (keys_of set.now))
        → IsTrue (list_any (λ b. a == b) (keys_of other.now))) }
{
    set.keys_are_in(other)
}

fn contains(set: &SharedMap<u64, ()>, attribute: u64) -> bool
    ensures { result ≡ list_any (λ b. attribute == b) (keys_of set.now) }
{
    set.get(&attribute).is_some()
}
