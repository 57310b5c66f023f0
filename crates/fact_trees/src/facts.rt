//! The trees of what holds, leaf by leaf. A leaf whose datoms all hold is shared.
ghost use Rattle.std.specs.Prelude.{◌≡◌, ◌≤◌, ◌^◌, map, drop, IfOk};
ghost use Rattle.std.specs.List.{slice_get};
ghost use Rattle.std.specs.Option.{option_copied};
ghost use Rattle.std.specs.Arc.{arc_value};
ghost use Rattle.fb_values.specs.declared.indexes.Order.{Order};
ghost use Rattle.fb_values.specs.Rising.{IsRising};
ghost use Rattle.fb_model.specs.Facts.{standing};
ghost use Rattle.seg_tree.specs.Indexes.{tree_in};
ghost use Rattle.seg_tree.specs.Nodes.{leaf_datoms, tree_datoms};
ghost use Rattle.seg_tree.specs.Ids.{node_ids, next_above};
ghost use Rattle.fact_trees.specs.Trees.{IsOfFacts};

use crate::builder::FactBuilder;
use fb_memory::Memory;
use fb_values::Datom;
use seg_tree::{Leaf, Roots, Tree};
use std::alloc::Global;
use std::sync::Arc;

/// Trees of what holds by these trees' datoms: the last datom of each triple, where that is an addition. Their ids come
/// after the older ones', and nothing keeps them.
pub fn facts_of(alloc: Global, all: &Roots) -> Result<Roots, Memory>
    requires { (order : Order) → IsRising order (tree_datoms (tree_in all.now order)) }
    ensures { IfOk result (λ facts. (order : Order)
        → tree_datoms (tree_in facts order) ≡ standing (tree_datoms (tree_in all.now order))) }
{
    let (eavt, second) = tree_of_facts(alloc, &all.eavt, all.next_id())?;
    let (aevt, third) = tree_of_facts(alloc, &all.aevt, second)?;
    let (avet, fourth) = tree_of_facts(alloc, &all.avet, third)?;
    let (vaet, _) = tree_of_facts(alloc, &all.vaet, fourth)?;
    Ok(Roots {
        eavt,
        aevt,
        avet,
        vaet,
    })
}

/// The tree of what holds by one tree's datoms, whose new nodes are numbered from `first` on, and the number that follows.
fn tree_of_facts(alloc: Global, all: &Tree, first: u64) -> Result<(Tree, u64), Memory>
    requires fresh { next_above (node_ids all.now) ≤ first }
    requires small { first ≤ 2 ^ 62 }
    requires rising { (order : Order) × IsRising order (tree_datoms all.now) }
    ensures { IfOk result (λ made. IsOfFacts all.now first made.0 made.1) }
{
    let leaves = all.leaves(alloc)?;
    let mut facts = FactBuilder::new(alloc, first);
    for place in 0..leaves.len() {
        facts = facts.with_leaf(&leaves[place], first_from(&leaves, place + 1))?;
    }
    facts.finish()
}

/// The first datom of the leaves from a place on.
fn first_from(leaves: &[Arc<Leaf>], place: usize) -> Option<&Datom>
    ensures { option_copied result
        ≡ slice_get (leaf_datoms (drop place (map arc_value leaves.now))) 0 }
{
    if place < leaves.len() {
        Some(leaves[place].first())
    } else {
        None
    }
}
