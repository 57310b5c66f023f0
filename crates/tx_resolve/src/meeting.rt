//! The tempids in the order in which a reader first meets them.
ghost use Rattle.std.specs.Prelude.{◌≡◌, ◌<◌, ℕ, [], ◌∷◌, length, flat_map, slice_index_or, None, IfOk};
ghost use Rattle.std.specs.BTreeMap.{get};
ghost use Rattle.fb_values.specs.Orders.{text_cmp};
ghost use Rattle.tx_resolve.specs.Tempids.{named, nameless as model_nameless};
ghost use Rattle.tx_resolve.specs.Meeting.{tempid_of, tempids_of_part, tempids_of_old_part, tempids_of, met_with, asks_in, AreMet, Meets, place_of};

use crate::holders::Slot;
use crate::names::OWN_TEMPID;
use crate::whom::TempidName;
use fb_memory::Memory;
use fb_text::Text;
use std::alloc::Global;
use std::collections::BTreeMap;
use tx_asks::{Ask, Comparison, Name, Operand};

/// The tempids that were met. The places are those of the order in which they were met first.
#[derive(Drop)]
pub struct Met<'a> {
    /// The places of the tempids with a name.
    pub named: BTreeMap<TempidName<'a>, usize>,
    /// The places of the maps without `:db/id`, by their numbers: none of a map that was not met.
    pub nameless: Vec<Option<usize>>,
    /// What is known of each tempid, by its place.
    pub slots: Vec<Slot>,
}

impl<'a> Met<'a> {
    /// With room for so many maps without `:db/id`.
    fn nothing(alloc: Global, nameless: usize) -> Result<Met<'a>, Memory>
        ensures { IfOk result (λ met. AreMet met []) }
    {
        Ok(Met {
            named: BTreeMap::new(alloc),
            nameless: Vec::with_capacity(alloc, nameless)?,
            slots: Vec::with_capacity(alloc, nameless)?,
        })
    }

    /// The place of the tempid with the name, if it was met.
    pub fn named_place(&self, text: &'a Text) -> Option<usize>
        ensures { result ≡ place_of self.now (named text.now) }
    {
        self.named.get(&TempidName::of(text)).copied()
    }

    /// The place of the map without `:db/id` that has the number, if it was met.
    pub fn nameless_place(&self, n: usize) -> Option<usize>
        ensures { result ≡ place_of self.now (model_nameless n) }
    {
        match self.nameless.get(n) {
            Some(place) => *place,
            None => None,
        }
    }

    fn meet_named(&mut self, text: &'a Text) -> Result<(), Memory>
        ensures { IfOk result (λ _. Meets self.old self.new (named text.now ∷ [])) }
    {
        if self.named.contains_key(&TempidName::of(text)) {
            return Ok(());
        }
        let place = self.slots.len();
        self.slots.push(Slot::NONE)?;
        self.named.insert(TempidName::of(text), place)?;
        Ok(())
    }

    fn meet_nameless(&mut self, n: usize) -> Result<(), Memory>
        ensures { IfOk result (λ _. Meets self.old self.new (model_nameless n ∷ [])) }
    {
        reach(&mut self.nameless, n)?;
        if self.nameless[n].is_some() {
            return Ok(());
        }
        self.nameless[n] = Some(self.slots.len());
        self.slots.push(Slot::NONE)?;
        Ok(())
    }

    fn meet(&mut self, name: &Name<'a>) -> Result<(), Memory>
        ensures { IfOk result (λ _. Meets self.old self.new (tempid_of name.now)) }
    {
        match name {
            Name::Tempid(text) if text.as_str() == OWN_TEMPID => Ok(()),
            Name::Tempid(text) => self.meet_named(text),
            Name::Nameless(n) => self.meet_nameless(*n),
            Name::Number(_) | Name::Ident(_) | Name::Lookup(_) => Ok(()),
        }
    }

    fn meet_part(&mut self, part: &Operand<'a>) -> Result<(), Memory>
        ensures { IfOk result (λ _. Meets self.old self.new (tempids_of_part part.now)) }
    {
        match part {
            Operand::Plain(_, _) => Ok(()),
            Operand::Entity(name) => self.meet(name),
        }
    }

    fn meet_old_part(&mut self, part: &Option<Operand<'a>>) -> Result<(), Memory>
        ensures { IfOk result (λ _. Meets self.old self.new (tempids_of_old_part part.now)) }
    {
        match part {
            None => Ok(()),
            Some(part) => self.meet_part(part),
        }
    }

    #[tactic(auto, using(crate::proofs::Meetings::meets_both))]
    fn meet_ask(&mut self, ask: &Ask<'a>) -> Result<(), Memory>
        ensures { IfOk result (λ _. Meets self.old self.new (tempids_of ask.now)) }
    {
        match ask {
            Ask::Adds { on, part, .. } | Ask::Retracts { on, part, .. } => {
                self.meet(on)?;
                self.meet_part(part)
            }
            Ask::Compares(comparison) => {
                let Comparison { on, old, new, .. } = comparison.get();
                self.meet(on)?;
                self.meet_old_part(old)?;
                self.meet_part(new)
            }
            Ask::RetractsAll { on, .. } | Ask::RetractsEntity { on } | Ask::Meets { on } => {
                self.meet(on)
            }
        }
    }
}

/// Makes room for the map with the number: maps are met in the order of their numbers, so this adds one place at the most.
fn reach(places: &mut Vec<Option<usize>>, n: usize) -> Result<(), Memory>
    ensures long { IfOk result (λ _. n < length places.new.items) }
    ensures same { IfOk result (λ _. (k : ℕ)
        → slice_index_or places.new.items k None ≡ slice_index_or places.old.items k None) }
{
    while places.len() <= n {
        places.push(None)?;
    }
    Ok(())
}

fn meet_form<'a>(met: &mut Met<'a>, asks: &[Ask<'a>]) -> Result<(), Memory>
    ensures { IfOk result (λ _. Meets met.old met.new (flat_map tempids_of asks.now)) }
{
    for ask in asks {
        met.meet_ask(ask)?;
    }
    Ok(())
}

/// The tempids of all forms, where there are so many maps without `:db/id`.
pub fn met_in<'a>(alloc: Global, nameless: usize, forms: &[Vec<Ask<'a>>]) -> Result<Met<'a>, Memory>
    ensures { IfOk result
        (λ met. AreMet met (met_with [] (flat_map tempids_of (asks_in forms.now)))) }
{
    let mut met = Met::nothing(alloc, nameless)?;
    for asks in forms {
        meet_form(&mut met, asks)?;
    }
    Ok(met)
}
