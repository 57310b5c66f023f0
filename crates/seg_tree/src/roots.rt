//! The four trees of a database.
ghost use Rattle.std.specs.Prelude.{◌≡◌, ◌+◌, ◌<◌, ◌≤◌, ◌^◌, [], length, IfOk};
ghost use Rattle.std.specs.List.{range_with_len};
ghost use Rattle.seg_tree.specs.Ids.{AreDistinct, ids_of_four, next_above};

use crate::build::numbered;
use crate::tree::Tree;
use fb_memory::Memory;
use fb_values::{Datom, Order};
use std::alloc::Global;

/// A tree for each of the four orders. No two of their nodes have one id.
#[derive(Drop)]
pub struct Roots {
    pub eavt: Tree,
    pub aevt: Tree,
    pub avet: Tree,
    pub vaet: Tree,
    pub ghost distinct: { AreDistinct (ids_of_four eavt aevt avet vaet) },
}

impl Roots {
    ghost use Rattle.fb_values.specs.declared.indexes.Order.{Order};
    ghost use Rattle.seg_tree.specs.Indexes.{tree_in, trees_of, root_ids};

    /// Four trees without a datom, as a database begins.
    pub fn empty(alloc: Global) -> Result<Roots, Memory>
        ensures { IfOk result (λ roots. (order : Order) → tree_in roots order ≡ []) }
    {
        let tree = Tree::of_directories(alloc, Vec::new(alloc))?;
        Ok(Roots {
            eavt: tree.share()?,
            aevt: tree.share()?,
            avet: tree.share()?,
            vaet: tree,
        })
    }

    /// The trees of four lists. Their ids are `first_id` and the numbers that follow it, one tree after the other.
    pub fn of(
        alloc: Global,
        eavt: Vec<Datom>,
        aevt: Vec<Datom>,
        avet: Vec<Datom>,
        vaet: Vec<Datom>,
        first_id: u64,
    ) -> Result<Roots, Memory>
        requires { first_id ≤ 2 ^ 61 }
        ensures lists { IfOk result (λ roots. trees_of roots
            ≡ record {
              eavt = eavt.items;
              aevt = aevt.items;
              avet = avet.items;
              vaet = vaet.items;
            }) }
        ensures ids { IfOk result
            (λ roots. root_ids roots ≡ range_with_len first_id (length (root_ids roots))) }
        ensures next { IfOk result (λ roots. 0 < length (root_ids roots)
            → next_above (root_ids roots) ≡ first_id + length (root_ids roots)) }
    {
        let (eavt, second) = numbered(alloc, eavt, first_id)?;
        let (aevt, third) = numbered(alloc, aevt, second)?;
        let (avet, fourth) = numbered(alloc, avet, third)?;
        let (vaet, _) = numbered(alloc, vaet, fourth)?;
        Ok(Roots {
            eavt,
            aevt,
            avet,
            vaet,
        })
    }

    /// The tree of an order.
    pub fn tree(&self, order: Order) -> &Tree
        ensures { result.now ≡ tree_in self.now order }
    {
        match order {
            Order::Eavt => &self.eavt,
            Order::Aevt => &self.aevt,
            Order::Avet => &self.avet,
            Order::Vaet => &self.vaet,
        }
    }

    /// The same trees, ids included.
    pub fn share(&self) -> Result<Roots, Memory>
        ensures { IfOk result (λ roots. roots ≡ self.now) }
    {
        Ok(Roots {
            eavt: self.eavt.share()?,
            aevt: self.aevt.share()?,
            avet: self.avet.share()?,
            vaet: self.vaet.share()?,
        })
    }

    /// The least number, from 1 on, that is above the ids of all nodes.
    #[tactic(auto, using(crate::proofs::Making::next_above_append))]
    pub fn next_id(&self) -> u64
        ensures next { result ≡ next_above (root_ids self.now) }
        ensures distinct { AreDistinct (root_ids self.now) }
        ensures small { result ≤ 2 ^ 62 }
    {
        let by_entity = self.eavt.next_id().max(self.aevt.next_id());
        let by_value = self.avet.next_id().max(self.vaet.next_id());
        by_entity.max(by_value)
    }
}
