//! What a tree is to be made of.
ghost use Rattle.std.specs.Prelude.{◌≡◌, ◌<◌, ◌≤◌, ◌^◌, [], ◌∷◌, ◌++◌, IfOk};
ghost use Rattle.std.specs.List.{All};
ghost use Rattle.std.specs.Arc.{arc_value};
ghost use Rattle.seg_tree.specs.Built.{IsBuilt};
ghost use Rattle.seg_merge.specs.Plans.{Planned};

use fb_memory::Memory;
use fb_values::Datom;
use seg_tree::{Builder, Leaf, Tree};
use std::alloc::Global;
use std::marker::Model;
use std::sync::Arc;

/// Leaves that stay, and datoms for new leaves, from left to right. The nodes of the tree have no ids yet.
#[derive(Drop)]
pub struct Plan {
    pieces: Vec<Piece>,
}

#[derive(Drop)]
pub enum Piece {
    Kept(Arc<Leaf>),
    New(Vec<Datom>),
}

impl Model for Plan {
    ghost use Rattle.seg_merge.specs.Plans.{Planned};

    ghost Value = { Planned };

    ghost use Rattle.seg_merge.specs.Pieces.{planned};

    ghost view = { λ p. planned p.pieces.items };
}

impl Plan {
    pub fn new(alloc: Global) -> Plan
        ensures { result ≡ record { datoms = []; kept = [] } }
    {
        Plan {
            pieces: Vec::new(alloc),
        }
    }

    /// The plan with a leaf that stays.
    pub fn keep(self, leaf: &Arc<Leaf>) -> Result<Plan, Memory>
        ensures { IfOk result (λ plan. plan
            ≡ record {
              datoms = self.datoms ++ (arc_value leaf.now).datoms;
              kept = self.kept ++ arc_value leaf.now ∷ [];
            }) }
    {
        let mut pieces = self.pieces;
        pieces.push(Piece::Kept(leaf.clone()?))?;
        Ok(Plan { pieces })
    }

    /// The plan with datoms for new leaves.
    pub fn add(self, datoms: Vec<Datom>) -> Result<Plan, Memory>
        ensures { IfOk result
            (λ plan. plan ≡ record self { datoms = self.datoms ++ datoms.items }) }
    {
        let mut pieces = self.pieces;
        pieces.push(Piece::New(datoms))?;
        Ok(Plan { pieces })
    }

    /// The tree, whose new nodes are numbered from `first` on, and the number that follows.
    pub fn build(self, alloc: Global, first: u64) -> Result<(Tree, u64), Memory>
        requires small { first ≤ 2 ^ 62 }
        requires older { All (λ leaf. leaf.id < first) self.kept }
        ensures { IfOk result (λ built. IsBuilt
            (record { first = first; datoms = self.datoms; kept = self.kept }) built.0 built.1) }
    {
        let mut builder = Builder::new(alloc, first);
        for piece in self.pieces {
            builder = match piece {
                Piece::Kept(leaf) => builder.keep(leaf)?,
                Piece::New(datoms) => builder.add(datoms)?,
            };
        }
        builder.finish()
    }
}
