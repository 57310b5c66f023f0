//! Room in a file most of whose nodes are dead: they are nodes of none of the trees that are kept on with.
ghost use Rattle.std.specs.Prelude.{◌≡◌, ◌⊎◌, ◌*◌, ◌-◌, [], ◌∷◌, ℕ, List, length, nat_eq, nat_lt, None, Some, OnOk, IsErrOf};
ghost use Rattle.std.specs.List.{IsDistinct};
ghost use Rattle.io_faults.specs.Faults.{Rose};
ghost use Rattle.fb_journal.specs.Journals.{Keeps, StaysKnown};
ghost use Rattle.seg_tree.specs.Ids.{node_ids};
ghost use Rattle.seg_tree.specs.Indexes.{root_ids};
ghost use Rattle.seg_codec.specs.Trees.{ids_lacking};
ghost use Rattle.seg_store.specs.Trees.{HaveStorableDatoms, KeepsRoot};

use crate::stores::{KeepFault, SegStore, prepared};
use fb_disk::Disk;
use fb_journal::Framed;
use seg_codec::Ids;
use seg_tree::{Roots, Tree};
use std::alloc::Global;

impl<D: Disk> SegStore<D> {
    ghost use Rattle.seg_store.specs.Stores.{disk_in, stop_in, node_count, StoreKeeps};
    ghost use Rattle.seg_store.specs.declared.stores.KeepFault.{KeepFault};

    /// Whether the file has more than two nodes for each node of these trees: where they are the file's, more than half of its
    /// nodes are dead.
    pub fn is_mostly_dead(&self, roots: &Roots) -> bool
        ensures count { result ≡ nat_lt (2 * length (root_ids roots.now)) (node_count self.now) }
        // The store counts no node twice.
        ensures distinct { IsDistinct nat_eq self.now.ids }
    {
        let left = without_two_each(&roots.eavt, self.ids.len());
        let left = without_two_each(&roots.aevt, left);
        let left = without_two_each(&roots.avet, left);
        let left = without_two_each(&roots.vaet, left);
        left > 0
    }

    /// Starts the file anew with these trees of the entries up to c, so that it has their root alone, and exactly their nodes.
    /// All memory is taken before the file is touched. A crash before this answers Ok may leave any bytes.
    pub fn renew(&mut self, alloc: Global, roots: &Roots, c: u32) -> Result<(), KeepFault>
        requires { HaveStorableDatoms roots.now }
        ensures renewed { OnOk result ((payload : List ℕ)
            × StoreKeeps D.bytes D.images (payload ∷ []) self.new
            × KeepsRoot [] payload roots.now c) }
        ensures ids { OnOk result (self.new.ids ≡ ids_lacking [] roots.now) }
        ensures alive { OnOk result (node_count self.new ≡ length (root_ids roots.now)) }
        ensures known { OnOk result
            (StaysKnown (D.bytes (disk_in self.old)) (D.bytes (disk_in self.new))) }

        // It fails only where the disk did, and then stops at record 0.
        ensures counted { OnOk result (D.faults (disk_in self.new) ≡ D.faults (disk_in self.old)) }
        ensures cause { IsErrOf result KeepFault.Disk
            → Rose (D.faults (disk_in self.old)) (D.faults (disk_in self.new)) }
        ensures stops { IsErrOf result KeepFault.Disk → stop_in self.new ≡ Some 0 }

        // A stopped store says so, and at which record, if memory does not run out. It does nothing then, nor where memory
        // runs out.
        ensures stopped { (at : ℕ) → stop_in self.old ≡ Some at
            → IsErrOf result (KeepFault.Stopped at) ⊎ IsErrOf result KeepFault.Memory }
        ensures going { stop_in self.old ≡ None → (at : ℕ)
            → IsErrOf result (KeepFault.Stopped at) → ⊥ }
        ensures unchanged { (at : ℕ) → IsErrOf result (KeepFault.Stopped at)
            → self.new ≡ self.old }
        ensures memory { IsErrOf result KeepFault.Memory → self.new ≡ self.old }
    {
        let mut ids = Ids::new(alloc);
        let framed = prepared(alloc, roots, c, &mut ids)?;
        self.start_with(&framed, ids)
    }

    /// Starts the file anew with this record alone, whose nodes have these ids.
    fn start_with(&mut self, framed: &Framed, ids: Ids) -> Result<(), KeepFault>
        ensures started { OnOk result
            (Keeps D.bytes D.images (framed.now ∷ []) self.new.journal) }
        ensures ids { OnOk result (self.new.ids ≡ ids) }
        ensures known { OnOk result
            (StaysKnown (D.bytes (disk_in self.old)) (D.bytes (disk_in self.new))) }
        ensures counted { OnOk result (D.faults (disk_in self.new) ≡ D.faults (disk_in self.old)) }
        ensures cause { IsErrOf result KeepFault.Disk
            → Rose (D.faults (disk_in self.old)) (D.faults (disk_in self.new)) }
        ensures stops { IsErrOf result KeepFault.Disk → stop_in self.new ≡ Some 0 }
        ensures stopped { (at : ℕ) → stop_in self.old ≡ Some at
            → result ≡ Err (KeepFault.Stopped at) }
        ensures going { stop_in self.old ≡ None → (at : ℕ)
            → IsErrOf result (KeepFault.Stopped at) → ⊥ }
        ensures unchanged { (at : ℕ) → IsErrOf result (KeepFault.Stopped at)
            → self.new ≡ self.old }
        ensures memory { IsErrOf result KeepFault.Memory → ⊥ }
    {
        self.reset()?;
        self.add(framed, 0)?;
        self.ids = ids;
        Ok(())
    }
}

/// So many without two for each node of a tree, or none where it has more nodes.
fn without_two_each(tree: &Tree, count: usize) -> usize
    ensures { result ≡ count - 2 * length (node_ids tree.now) }
{
    let mut left = count;
    for directory in tree.directories() {
        left = left.saturating_sub(2 * (directory.leaves().len() + 1));
    }
    left
}
