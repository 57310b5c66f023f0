//! The guard on composites.
ghost use Rattle.std.specs.Prelude.{◌≡◌, [], ◌∷◌, ◌++◌, IfOk, IfErr};

use crate::barring::bar_of;
use fb_memory::Memory;
use fb_text::Text;
use fb_values::Datom;
use fb_view::Snapshot;
use std::alloc::Global;
use tx_refusals::Bar;
use tx_step::Guard;

/// The names of a composite's attributes, each a keyword without its colon.
#[derive(Drop)]
pub struct Names {
    pub items: Vec<Text>,
}

/// Composites of which no two entities may have one tuple without nil. Names that give no composite bar nothing. One attribute of each
/// should be indexed: else each entity of a change costs a walk over the first attribute.
#[derive(Drop)]
pub struct UniqueTuples {
    alloc: Global,
    lists: Vec<Names>,
}

impl UniqueTuples {
    /// A guard that bars nothing. It takes no memory.
    pub fn new(alloc: Global) -> UniqueTuples
        ensures { result.lists.items ≡ [] }
    {
        UniqueTuples {
            alloc,
            lists: Vec::new(alloc),
        }
    }

    /// The tuples of one composite more are to be of one entity each.
    pub fn add(&mut self, names: Names) -> Result<(), Memory>
        ensures added { IfOk result (λ _. self.new.lists.items ≡ self.old.lists.items ++ names ∷ []) }
        ensures unchanged { IfErr result (λ _. self.new.lists.items ≡ self.old.lists.items) }
    {
        self.lists.push(names)?;
        Ok(())
    }
}

impl Guard<Snapshot> for UniqueTuples {
    ghost use Rattle.tuple_model.specs.UniqueTuples.{bars_unique};
    ghost use Rattle.fb_tuple_guard.specs.Sharing.{lists_in};

    ghost bars = { λ u. bars_unique (lists_in u.lists.items) };

    fn judge(&self, before: &Snapshot, changes: &[Datom]) -> Result<Option<Bar>, Memory> {
        bar_of(self.alloc, &self.lists, before, changes)
    }
}
