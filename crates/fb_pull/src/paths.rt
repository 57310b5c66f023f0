//! The path to an entity: each link knows the one above it, so that nothing is copied on the way down.
ghost use Rattle.std.specs.Prelude.{◌≡◌, ◌∷◌};
ghost use Rattle.pull_model.specs.Tree.{is_on};
ghost use Rattle.fb_pull.specs.Paths.{path_above};

use std::marker::Model;

/// An entity, and the path that led to it.
#[derive(Drop)]
pub struct Path<'p> {
    e: u64,
    above: Option<&'p Path<'p>>,
}

impl<'p> Model for Path<'p> {
    ghost use Rattle.std.specs.Prelude.{ℕ, List, ◌∷◌, length};
    ghost use Rattle.fb_pull.specs.Paths.{path_above};

    ghost Value = { List ℕ };

    ghost view = { λ p. p.e ∷ path_above p.above };

    ghost size = { length };

    ghost use Rattle.std.proofs.Common.{arith};

    ghost size_decreases = { λ a h. Prim.grind arith };
}

impl<'p> Path<'p> {
    pub fn to(e: u64, above: Option<&'p Path<'p>>) -> Path<'p>
        ensures { result ≡ e ∷ path_above above.entry }
    {
        Path { e, above }
    }

    /// Whether the entity is on it.
    pub fn has(&self, n: u64) -> bool
        ensures { result ≡ is_on self.now n }
    {
        if n == self.e {
            return true;
        }
        match self.above {
            Some(above) => above.has(n),
            None => false,
        }
    }
}
