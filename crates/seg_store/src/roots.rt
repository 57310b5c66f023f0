//! A store on a disk as a store of the worker's trees.

use crate::laws::{trees_made_of_fitting_ones_fit, trees_of_a_lawful_history_are_storable};
use crate::stores::{KeepFault, SegStore};
use fb_disk::Disk;
use fb_roots::{Base, KeepFault as RootFault, RootStore};
use std::alloc::Global;

impl<D: Disk> RootStore for SegStore<D> {
    ghost use Rattle.seg_store.specs.Stores.{disk_in, next_in};
    ghost use Rattle.seg_store.specs.Keeping.{GoesOn, HasKept, FitsStore};

    ghost faults = { λ store. D.faults (disk_in store) };

    ghost goes = { GoesOn D.bytes D.images };

    ghost keeps = { HasKept D.bytes D.images };

    ghost next = { λ store. next_in store };

    ghost fits = { FitsStore D.bytes D.images };

    fn next_id(&self) -> u64 {
        trees_made_of_fitting_ones_fit();
        self.next_id()
    }

    fn keep(&mut self, alloc: Global, base: &Base) -> Result<(), RootFault> {
        trees_of_a_lawful_history_are_storable();
        match self.keep(alloc, &base.roots, base.c) {
            Ok(()) => Ok(()),
            Err(KeepFault::Memory) => Err(RootFault::Memory),
            Err(KeepFault::Disk) => Err(RootFault::Failed),
            // Trees fit no store that has stopped.
            Err(KeepFault::Stopped { .. }) => unreachable!(),
        }
    }
}
