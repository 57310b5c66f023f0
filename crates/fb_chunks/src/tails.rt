//! The end of a list: its newest items, each of which points to the one before it.
ghost use Rattle.std.specs.Prelude.{◌≡◌, ◌+◌, ◌<◌, [], ◌∷◌, ◌++◌, length, slice_get, IfOk, Some};
ghost use Rattle.fb_chunks.specs.Tails.{items_up_to};

use crate::chunks::{CHUNK, Chunk};
use crate::sharing::Share;
use fb_memory::Memory;
use std::alloc::Global;
use std::marker::Model;
use std::sync::Arc;

/// The newest item of a short list, and None for an empty one. A longer tail points to it and copies nothing: that costs a
/// block and two reference counts, however many items there are. An item is as many steps away as there are newer ones.
pub type Tail<X> = Option<Arc<Link<X>>>;

/// An item, behind those that came before it. There are at most `CHUNK`, so that dropping one goes no deeper than that.
#[derive(Drop)]
pub struct Link<X> {
    /// How many items there are up to this one.
    len: usize,
    item: X,
    before: Tail<X>,
}

impl<X> Model for Link<X> {
    ghost use Rattle.std.specs.Prelude.{List, ◌++◌, ◌∷◌, [], length};
    ghost use Rattle.fb_chunks.specs.Tails.{items_up_to, IsLink};

    ghost Value = { List X };

    ghost view = { λ a. items_up_to a.before ++ a.item ∷ [] };

    ghost invariant = { λ a. IsLink (items_up_to a.before ++ a.item ∷ []) a.len };

    ghost size = { length };

    ghost use Rattle.std.proofs.Common.{arith, length-append};

    ghost size_decreases = { λ a h. Prim.grind (arith, length-append) };
}

pub fn len<X>(tail: &Tail<X>) -> usize
    ensures { result ≡ length (items_up_to tail.now) }
{
    match tail {
        None => 0,
        Some(newest) => newest.len(),
    }
}

pub fn at<X>(tail: &Tail<X>, place: usize) -> &X
    requires { place < length (items_up_to tail.now) }
    ensures { slice_get (items_up_to tail.now) place ≡ Some result.now }
{
    match tail {
        None => unreachable!(),
        Some(newest) => newest.at(place),
    }
}

/// The tail with one more item at its end.
pub fn with<X: Share>(alloc: Global, tail: &Tail<X>, item: X) -> Result<Tail<X>, Memory>
    requires { length (items_up_to tail.now) < CHUNK }
    ensures { IfOk result (λ longer. items_up_to longer ≡ items_up_to tail.now ++ item ∷ []) }
{
    let link = Link {
        len: len(tail) + 1,
        item,
        before: share(tail)?,
    };
    Ok(Some(Arc::new(alloc, link)?))
}

/// The items as a chunk, which has them side by side.
pub fn to_chunk<X: Share>(alloc: Global, tail: &Tail<X>) -> Result<Chunk<X>, Memory>
    ensures { IfOk result (λ chunk. chunk ≡ items_up_to tail.now) }
{
    let mut items = Vec::with_capacity(alloc, CHUNK)?;
    if let Some(newest) = tail {
        newest.share_into(&mut items)?;
    }
    Chunk::of(alloc, items)
}

pub fn share<X: Drop>(tail: &Tail<X>) -> Result<Tail<X>, Memory>
    ensures { IfOk result (λ shared. items_up_to shared ≡ items_up_to tail.now) }
{
    match tail {
        None => Ok(None),
        Some(newest) => Ok(Some(newest.clone()?)),
    }
}

impl<X> Link<X> {
    fn len(&self) -> usize
        ensures { result ≡ length self.now }
    {
        self.len
    }

    fn at(&self, place: usize) -> &X
        requires { place < length self.now }
        ensures { slice_get self.now place ≡ Some result.now }
    {
        if self.len == place + 1 {
            return &self.item;
        }
        match &self.before {
            None => unreachable!(),
            Some(before) => before.at(place),
        }
    }
}

impl<X: Share> Link<X> {
    /// Shares the items into a list, the oldest first.
    fn share_into(&self, items: &mut Vec<X>) -> Result<(), Memory>
        ensures { IfOk result (λ _. items.new.items ≡ items.old.items ++ self.now) }
    {
        if let Some(before) = &self.before {
            before.share_into(items)?;
        }
        Ok(items.push(self.item.share()?)?)
    }
}
