//! Ids of nodes, in the order in which they came.
ghost use Rattle.std.specs.Prelude.{◌≡◌, ℕ, ◌<◌, ◌≤◌, ◌^◌, ◌++◌, ◌∷◌, [], length, take, nat_eq, false, slice_index, All, IfSome, IfNone, OnOk, OnErr};
ghost use Rattle.std.specs.List.{IsDistinct};
ghost use Rattle.log_model.specs.Nodes.{is_among};
ghost use Rattle.seg_tree.specs.Ids.{next_above as model_next_above};

use fb_memory::Memory;
use std::alloc::Global;
use std::collections::BTreeMap;
use std::marker::Model;

/// A list of ids below 2^62, none of them twice. Whether it has one, and where, is found in a logarithm of comparisons.
#[derive(Drop)]
pub struct Ids {
    ids: Vec<u64>,
    /// The place of each id.
    places: BTreeMap<u64, usize>,
}

impl Model for Ids {
    ghost use Rattle.std.specs.Prelude.{List, ℕ};
    ghost use Rattle.seg_codec.specs.IdPlaces.{ArePlaced};

    ghost Value = { List ℕ };

    ghost view = { λ i. i.ids.items };

    ghost invariant = { λ i. ArePlaced i.ids.items i.places };
}

impl Ids {
    pub fn new(alloc: Global) -> Ids
        ensures { result ≡ [] }
    {
        Ids {
            ids: Vec::new(alloc),
            places: BTreeMap::new(alloc),
        }
    }

    pub fn len(&self) -> usize
        ensures len { result ≡ length self.now }
        ensures distinct { IsDistinct nat_eq self.now }
        ensures small { All (λ id. id < 2 ^ 62) self.now }
    {
        self.ids.len()
    }

    pub fn as_slice(&self) -> &[u64]
        ensures value { result.now ≡ self.now }
        ensures distinct { IsDistinct nat_eq self.now }
        ensures small { All (λ id. id < 2 ^ 62) self.now }
    {
        &self.ids
    }

    pub fn contains(&self, id: u64) -> bool
        ensures { result ≡ is_among self.now id }
    {
        self.place(id).is_some()
    }

    /// The place of the id.
    pub fn place(&self, id: u64) -> Option<usize>
        ensures none { IfNone result (is_among self.now id ≡ false) }
        ensures some { IfSome result
            (λ place. (place < length self.now) × (slice_index self.now place ≡ id)) }
    {
        self.places.get(&id).copied()
    }

    /// One more id.
    pub fn add(&mut self, id: u64) -> Result<(), Memory>
        requires new { is_among self.old id ≡ false }
        requires small { id < 2 ^ 62 }
        ensures added { OnOk result (self.new ≡ self.old ++ id ∷ []) }
        ensures unchanged { OnErr result (self.new ≡ self.old) }
    {
        let place = self.ids.len();
        self.ids.push(id)?;
        match self.places.insert(id, place) {
            Ok(_) => Ok(()),
            Err(_) => {
                self.ids.truncate(place);
                Err(Memory)
            }
        }
    }

    /// More ids, or none of them where memory runs out.
    pub fn add_all(&mut self, ids: &[u64]) -> Result<(), Memory>
        requires distinct { IsDistinct nat_eq (self.old ++ ids.now) }
        requires small { All (λ id. id < 2 ^ 62) ids.now }
        ensures added { OnOk result (self.new ≡ self.old ++ ids.now) }
        ensures unchanged { OnErr result (self.new ≡ self.old) }
    {
        let known = self.len();
        for id in ids {
            match self.add(*id) {
                Ok(()) => {}
                Err(memory) => {
                    self.cut(known);
                    return Err(memory);
                }
            }
        }
        Ok(())
    }

    /// The first so many alone. It takes no memory.
    pub fn cut(&mut self, len: usize)
        ensures { self.new ≡ take len self.old }
    {
        while self.len() > len {
            self.drop_last();
        }
    }

    fn drop_last(&mut self)
        requires { 0 < length self.old }
        ensures { (id : ℕ) × (self.old ≡ self.new ++ id ∷ []) }
    {
        match self.ids.pop() {
            None => unreachable!(),
            Some(id) => {
                self.places.remove(&id);
            }
        }
    }

    /// The least number, from 1 on, that is above all of them.
    pub fn next_above(&self) -> u64
        ensures next { result ≡ model_next_above self.now }
        ensures small { result ≤ 2 ^ 62 }
    {
        match self.places.last_key_value() {
            None => 1,
            Some((id, _)) => *id + 1,
        }
    }
}
