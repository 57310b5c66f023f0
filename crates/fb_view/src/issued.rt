//! The greatest user number that a history has issued. Entities ascend in EAVT, so the last datom has it.
ghost use Rattle.std.specs.Prelude.{◌≡◌, ◌-◌, length};
ghost use Rattle.std.specs.List.{slice_get};
ghost use Rattle.std.specs.Option.{option_map_or, option_copied};
ghost use Rattle.fb_model.specs.History.{users_issued};
ghost use Rattle.fb_numbers.specs.Numbers.{user_number as model_user_number};
ghost use Rattle.seg_tree.specs.Nodes.{tree_datoms};
ghost use Rattle.fb_view.specs.SnapshotModel.{Stands};

use crate::snapshot::Snapshot;
use fb_numbers::user_number;
use fb_values::Datom;
use seg_tree::Tree;

impl Snapshot {
    /// The greatest n of a user entity that is the entity of a datom, or 0.
    pub(crate) fn greatest_user(&self) -> u64
        ensures users { result ≡ users_issued self.now.entries }
        ensures stands { Stands self.now }
    {
        let older = user_of(last_older(&self.roots().eavt));
        let live = user_of(self.live().last());
        older.max(live)
    }
}

/// The n of the datom's entity, or 0.
fn user_of(datom: Option<&Datom>) -> u64
    ensures { result ≡ option_map_or (λ d. model_user_number d.e) (option_copied datom.entry) 0 }
{
    match datom {
        None => 0,
        Some(datom) => user_number(datom.e),
    }
}

fn last_older(tree: &Tree) -> Option<&Datom>
    ensures { option_copied result
        ≡ slice_get (tree_datoms tree.now) (length (tree_datoms tree.now) - 1) }
{
    let directory = tree.directories().last()?;
    let leaf = directory.leaves().last()?;
    leaf.datoms().last()
}
