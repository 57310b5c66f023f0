//! A tree of facts in the making.
ghost use Rattle.std.specs.Prelude.{◌≡◌, ◌<◌, ◌≤◌, ◌^◌, [], ◌∷◌, ◌++◌, IfOk};
ghost use Rattle.std.specs.Arc.{arc_value};
ghost use Rattle.std.specs.Option.{option_copied};
ghost use Rattle.seg_tree.specs.Built.{IsBuilt};
ghost use Rattle.fact_trees.specs.Facts.{facts_before, with_leaf};

use crate::leaf::{all_stand, with_facts};
use fb_memory::Memory;
use fb_values::Datom;
use seg_tree::{Builder, Leaf, MOST, Tree};
use std::alloc::Global;
use std::marker::Model;
use std::sync::Arc;

/// Leaves that are kept, and facts of other leaves, from left to right.
#[derive(Drop)]
pub struct FactBuilder {
    alloc: Global,
    builder: Builder,
    /// Facts for the next new leaf. They wait until they fill one, so that no small leaves pile up.
    waiting: Vec<Datom>,
}

impl Model for FactBuilder {
    ghost use Rattle.std.specs.Prelude.{◌++◌};
    ghost use Rattle.seg_tree.specs.Built.{Build};

    ghost Value = { Build };

    ghost view = { λ b. record b.builder { datoms = b.builder.datoms ++ b.waiting.items } };
}

impl FactBuilder {
    /// A tree without a leaf, whose first new id is to be `first`.
    pub fn new(alloc: Global, first: u64) -> FactBuilder
        requires { first ≤ 2 ^ 62 }
        ensures { result ≡ record { first = first; datoms = []; kept = [] } }
    {
        FactBuilder {
            alloc,
            builder: Builder::new(alloc, first),
            waiting: Vec::new(alloc),
        }
    }

    /// The tree with what holds of an older leaf, where the next datom follows it. The leaf is shared where all of it holds.
    pub fn with_leaf(self, leaf: &Arc<Leaf>, next: Option<&Datom>) -> Result<FactBuilder, Memory>
        requires { (arc_value leaf.now).id < self.first }
        ensures { IfOk result (λ new. new
            ≡ with_leaf self (arc_value leaf.now) (option_copied next.entry)) }
    {
        if all_stand(leaf.datoms(), next) {
            self.keep(leaf)
        } else {
            self.add(leaf.datoms(), next)
        }
    }

    fn keep(self, leaf: &Arc<Leaf>) -> Result<FactBuilder, Memory>
        requires { (arc_value leaf.now).id < self.first }
        ensures { IfOk result (λ new. new
            ≡ record self {
              datoms = self.datoms ++ (arc_value leaf.now).datoms;
              kept = self.kept ++ arc_value leaf.now ∷ [];
            }) }
    {
        let FactBuilder {
            alloc,
            builder,
            waiting,
        } = self;
        let builder = builder.add(waiting)?.keep(leaf.clone()?)?;
        Ok(FactBuilder {
            alloc,
            builder,
            waiting: Vec::new(alloc),
        })
    }

    fn add(self, datoms: &[Datom], next: Option<&Datom>) -> Result<FactBuilder, Memory>
        ensures { IfOk result (λ new. new
            ≡ record self {
              datoms = self.datoms ++ facts_before datoms.now (option_copied next.entry);
            }) }
    {
        let FactBuilder {
            alloc,
            builder,
            waiting,
        } = self;
        let waiting = with_facts(waiting, datoms, next)?;
        if waiting.len() < MOST {
            return Ok(FactBuilder {
                alloc,
                builder,
                waiting,
            });
        }
        Ok(FactBuilder {
            alloc,
            builder: builder.add(waiting)?,
            waiting: Vec::new(alloc),
        })
    }

    /// The tree, and the number that follows the ids of its new nodes.
    pub fn finish(self) -> Result<(Tree, u64), Memory>
        ensures { IfOk result (λ built. IsBuilt self built.0 built.1) }
    {
        self.builder.add(self.waiting)?.finish()
    }
}
