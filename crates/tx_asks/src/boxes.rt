//! Values in boxes of their own.
ghost use Rattle.std.specs.Prelude.{◌≡◌, IfOk};

use fb_memory::Memory;
use std::alloc::Global;
use std::marker::Model;

/// A value in a box of its own, since it is larger than what stands beside it in an enum, and rarer.
#[derive(Drop)]
pub struct Boxed<T> {
    kept: Box<T>,
}

impl<T> Model for Boxed<T> {
    ghost Value = { T };

    ghost view = { λ b. b.kept.value };
}

impl<T> Boxed<T> {
    pub fn get(&self) -> &T
        ensures { result.now ≡ self.now }
    {
        &self.kept
    }
}

impl<T: Drop> Boxed<T> {
    pub fn new(alloc: Global, value: T) -> Result<Boxed<T>, Memory>
        ensures { IfOk result (λ b. b ≡ value) }
    {
        let kept = Box::new(alloc, value)?;
        Ok(Boxed { kept })
    }

    pub fn into_inner(self) -> T
        ensures { result ≡ self }
    {
        Box::into_inner(self.kept)
    }
}
