//! What a pull gives of each entity that is found under an item. It is the same for all of them, so it is found out once.
ghost use Rattle.std.specs.Prelude.{◌≡◌, ℕ, List, IfOk};
ghost use Rattle.pull_model.specs.Made.{Made};
ghost use Rattle.pull_model.specs.Patterns as patterns;
ghost use Rattle.pull_model.specs.Tree as model;
ghost use Rattle.pull_pattern.specs.View.{model_pattern, model_below};
ghost use Rattle.fb_pull.specs.Below.{made_by};

use fb_memory::Memory;
use pull_pattern::{Below, Pattern};
use std::alloc::Global;

/// What a pull gives of an entity.
#[derive(Drop)]
pub enum Inner {
    /// Its number.
    Number,
    /// Its tree under a pattern; of an entity that is met again on the path its number.
    Along(Pattern),
    /// Its tree under a pattern that has a path of its own.
    Apart(Pattern),
}

/// What a pull gives of the entities under the item at the place of the pattern, which may be parts.
pub fn inner_of(
    alloc: Global,
    pattern: &Pattern,
    place: usize,
    below: &Below,
    parts: bool,
) -> Result<Inner, Memory>
    ensures { (trees : patterns.Pattern → List ℕ → ℕ → Made) (path : List ℕ) (n : ℕ)
        → IfOk result (λ inner. made_by trees inner path n
        ≡ model.pull_below trees (model_pattern pattern.now) place path parts (model_below below.now) n) }
{
    Ok(match below {
        Below::Usual if !parts => Inner::Number,
        Below::Usual => Inner::Along(Pattern::everything(alloc)?),
        Below::Under(inner) => Inner::Apart(inner.share()?),
        Below::Times(_) => Inner::Along(pattern.one_less(alloc, place)?),
        Below::Unlimited => Inner::Along(pattern.share()?),
    })
}

/// What a pull gives where nothing else is asked for.
pub fn usual() -> Below
    ensures { model_below result ≡ patterns.usual }
{
    Below::Usual
}
