//! The list for callers: a tail of its newest items, and a tree of the full chunks before it.
ghost use Rattle.std.specs.Prelude.{◌≡◌, ◌<◌, ◌^◌, ◌-◌, [], ◌∷◌, ◌++◌, length, slice_get, IfOk, Some, ◌==◌};

use crate::chunks::{CHUNK, Chunk};
use crate::sharing::Share;
use crate::tails::{self, Tail};
use crate::tree::{self, Tree};
use fb_memory::Memory;
use std::alloc::Global;
use std::marker::Model;
use std::sync::Arc;

/// A list that only grows. A longer one is made from it by `with`, which leaves it as it is and shares all but a few of
/// its chunks. Chunks and the forks above them have up to 32 items each: a place among a million is read in four steps, and
/// one of the newest 32 in as many as there are newer items. `with` makes one block and takes two reference counts, and at
/// each 32nd item it makes the tail a chunk and copies one way down the tree. `share` takes two reference counts.
#[derive(Drop)]
pub struct ChunkList<T: Share> {
    alloc: Global,
    len: usize,
    full: Arc<Tree<Chunk<T>>>,
    tail: Tail<T>,
}

impl<T: Share> Model for ChunkList<T> {
    ghost use Rattle.std.specs.Prelude.{◌++◌, List};
    ghost use Rattle.std.specs.Arc.{arc_value};
    ghost use Rattle.fb_chunks.specs.declared.chunks.TheConstants.{CHUNK};
    ghost use Rattle.fb_chunks.specs.Chunks.{joined, IsLayer};
    ghost use Rattle.fb_chunks.specs.Tails.{items_up_to};

    ghost Value = { List T };

    ghost view = { λ l. joined (arc_value l.full) ++ items_up_to l.tail };

    ghost invariant = { λ l. IsLayer CHUNK (arc_value l.full) (items_up_to l.tail) l.len };
}

impl<T: Share> ChunkList<T> {
    pub fn new(alloc: Global) -> Result<ChunkList<T>, Memory>
        ensures { IfOk result (λ l. l ≡ []) }
    {
        let none = Tree::leaf(Vec::new(alloc));
        Ok(ChunkList {
            alloc,
            len: 0,
            full: Arc::new(alloc, none)?,
            tail: None,
        })
    }

    pub fn len(&self) -> usize
        ensures { result ≡ length self.now }
    {
        self.len
    }

    pub fn is_empty(&self) -> bool
        ensures { result ≡ (length self.now == 0) }
    {
        self.len == 0
    }

    pub fn at(&self, place: usize) -> &T
        requires { place < length self.now }
        ensures { slice_get self.now place ≡ Some result.now }
    {
        let chunk = place / CHUNK;
        let place = place % CHUNK;
        if chunk < self.full.len() {
            &self.full.at(chunk).as_slice()[place]
        } else {
            tails::at(&self.tail, place)
        }
    }

    /// The list with one more item at its end.
    pub fn with(&self, item: T) -> Result<ChunkList<T>, Memory>
        requires { length self.now < 2 ^ 32 - 1 }
        ensures { IfOk result (λ l. l ≡ self.now ++ item ∷ []) }
    {
        let alloc = self.alloc;
        let len = self.len + 1;
        if tails::len(&self.tail) < CHUNK {
            let full = self.full.clone()?;
            let tail = tails::with(alloc, &self.tail, item)?;
            return Ok(ChunkList {
                alloc,
                len,
                full,
                tail,
            });
        }
        let chunk = tails::to_chunk(alloc, &self.tail)?;
        let full = tree::with(alloc, &self.full, chunk)?;
        let tail = tails::with(alloc, &None, item)?;
        Ok(ChunkList {
            alloc,
            len,
            full,
            tail,
        })
    }
}

impl<T: Share> Share for ChunkList<T> {
    fn share(&self) -> Result<ChunkList<T>, Memory> {
        Ok(ChunkList {
            alloc: self.alloc,
            len: self.len,
            full: self.full.clone()?,
            tail: tails::share(&self.tail)?,
        })
    }
}
