//! What a file of segments keeps, found record by record.
ghost use Rattle.std.specs.Prelude.{◌≡◌, ◌++◌, [], ◌∷◌, ℕ, List, false, IsTrue, IfOk, OnOk};
ghost use Rattle.seg_codec.specs.declared.wanted.Wanted.{Wanted};
ghost use Rattle.seg_store.specs.Finding.{HasFound};

use crate::loads::KeptTrees;
use fb_codec::BytesFault;
use fb_memory::Memory;
use seg_codec::{Nodes, Wanted, is_bad_front, record_of};
use std::alloc::Global;

/// What the records so far keep.
#[derive(Drop)]
pub(crate) struct Found {
    /// Those leaves that are held whole.
    pub(crate) wanted: Wanted,
    pub(crate) nodes: Nodes,
    pub(crate) kept: Vec<KeptTrees>,
    /// Nothing was bad so far.
    pub(crate) good: bool,
}

impl Found {
    /// No record yet.
    pub(crate) fn none(alloc: Global, wanted: Wanted) -> Found
        ensures { HasFound wanted [] result }
    {
        Found {
            wanted,
            nodes: Nodes::new(alloc),
            kept: Vec::new(alloc),
            good: true,
        }
    }

    /// The next record. After a bad one nothing counts.
    pub(crate) fn add(&mut self, alloc: Global, payload: &[u8]) -> Result<(), Memory>
        ensures { OnOk result ((wanted : Wanted) (records : List (List ℕ))
            → HasFound wanted records self.old
            → HasFound wanted (records ++ payload.now ∷ []) self.new) }
    {
        if !self.good {
            return Ok(());
        }
        match record_of(alloc, payload, &self.wanted, &mut self.nodes) {
            Ok((roots, c)) => {
                self.kept.push(KeptTrees { roots, c })?;
                Ok(())
            }
            Err(BytesFault::At { .. }) => {
                self.good = false;
                Ok(())
            }
            Err(BytesFault::Memory) => Err(Memory),
        }
    }

    /// Adds the next record, of whose payload this is the front, if it counts for nothing whatever follows: the front tells that
    /// it is bad, or one before it was. Answers whether it does.
    pub(crate) fn pass(&mut self, alloc: Global, front: &[u8]) -> Result<bool, Memory>
        ensures added { IfOk result (λ passes. IsTrue passes → (rest : List ℕ) (wanted : Wanted)
            (records : List (List ℕ)) → HasFound wanted records self.old
            → HasFound wanted (records ++ (front.now ++ rest) ∷ []) self.new) }
        ensures stays { IfOk result (λ passes. passes ≡ false → (wanted : Wanted)
            (records : List (List ℕ))
            → HasFound wanted records self.old → HasFound wanted records self.new) }
    {
        if !self.good {
            return Ok(true);
        }
        let bad = is_bad_front(alloc, front, &self.wanted, &mut self.nodes)?;
        self.good = !bad;
        Ok(bad)
    }
}
