//! A chunk: a short list that its owners share whole.
ghost use Rattle.std.specs.Prelude.{◌≡◌, IfOk};

use crate::sharing::{Share, Shared};
use fb_memory::Memory;
use std::alloc::Global;
use std::marker::Model;

/// The items of a full chunk, and the most that a tail has. A larger number makes the newest items dearer to reach, a
/// smaller one the older items.
pub const CHUNK: usize = 32;

/// A short list.
#[derive(Drop)]
pub struct Chunk<X> {
    items: Shared<Vec<X>>,
}

impl<X> Model for Chunk<X> {
    ghost use Rattle.std.specs.Prelude.{List};

    ghost Value = { List X };

    ghost view = { λ c. c.items.items };
}

impl<X: Share> Chunk<X> {
    pub fn of(alloc: Global, items: Vec<X>) -> Result<Chunk<X>, Memory>
        ensures { IfOk result (λ c. c ≡ items.items) }
    {
        let items = Shared::new(alloc, items)?;
        Ok(Chunk { items })
    }

    pub fn as_slice(&self) -> &[X]
        ensures { result.now ≡ self.now }
    {
        self.items.get().as_slice()
    }
}

impl<X: Share> Share for Chunk<X> {
    fn share(&self) -> Result<Chunk<X>, Memory> {
        let items = self.items.share()?;
        Ok(Chunk { items })
    }
}
