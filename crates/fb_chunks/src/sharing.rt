//! Copies that share what they hold.
ghost use Rattle.std.specs.Prelude.{◌≡◌, ◌<◌, ◌^◌, ◌-◌, [], ◌∷◌, ◌++◌, length, IfOk};

use fb_memory::Memory;
use std::alloc::Global;
use std::marker::Model;
use std::sync::Arc;

/// A value that another owner can have at the cost of a few reference counts.
pub trait Share: Drop {
    /// The same value.
    fn share(&self) -> Result<Self, Memory>
        ensures { IfOk result (λ x. x ≡ self.now) };
}

impl Share for u32 {
    fn share(&self) -> Result<u32, Memory> {
        Ok(*self)
    }
}

/// The same items, and one more.
pub fn copy_with<X: Share>(alloc: Global, items: &[X], item: X) -> Result<Vec<X>, Memory>
    requires { length items.now < 2 ^ 32 - 1 }
    ensures { IfOk result (λ copy. copy.items ≡ items.now ++ item ∷ []) }
{
    let mut copy = Vec::with_capacity(alloc, items.len() + 1)?;
    for kept in items {
        copy.push(kept.share()?)?;
    }
    copy.push(item)?;
    Ok(copy)
}

/// A value on the heap, with several owners.
#[derive(Drop)]
pub struct Shared<T> {
    value: Arc<T>,
}

impl<T> Model for Shared<T> {
    ghost use Rattle.std.specs.Arc.{arc_value};

    ghost Value = { T };

    ghost view = { λ s. arc_value s.value };
}

impl<T> Shared<T> {
    pub fn get(&self) -> &T
        ensures { result.now ≡ self.now }
    {
        &self.value
    }
}

impl<T: Drop> Shared<T> {
    pub fn new(alloc: Global, value: T) -> Result<Shared<T>, Memory>
        ensures { IfOk result (λ s. s ≡ value) }
    {
        let value = Arc::new(alloc, value)?;
        Ok(Shared { value })
    }
}

impl<T: Drop> Share for Shared<T> {
    fn share(&self) -> Result<Shared<T>, Memory> {
        let value = self.value.clone()?;
        Ok(Shared { value })
    }
}
