//! Adopting trees that were merged, while the history went on.
ghost use Rattle.std.specs.Prelude.{◌≡◌, IfOk};
ghost use Rattle.fb_model.specs.History.{basis, upto};
ghost use Rattle.view_model.specs.Stands.{RootStands};
ghost use Rattle.seg_tree.specs.Indexes.{trees_of};

use crate::shared::Core;
use fb_memory::Memory;
use fb_view::Snapshot;
use seg_tree::Roots;
use std::mem;

/// The latest value of the database over newer trees, which are not yet adopted.
#[derive(Drop)]
pub struct Rebased {
    snapshot: Snapshot,
}

impl Core {
    ghost use Rattle.fb_core.specs.Cores.{IsRebaseOf};

    /// Its latest value over trees that were made of those of an older one. What came since is live.
    pub fn rebase(&self, begin: &Snapshot, roots: Roots) -> Result<Rebased, Memory>
        requires begins { upto self.now.snapshot.entries (basis begin.now.entries)
            ≡ begin.now.entries }
        requires roots { RootStands (trees_of roots) begin.now.entries (basis begin.now.entries) }
        ensures rebase { IfOk result (λ rebased. IsRebaseOf self.now rebased) }
        ensures roots { IfOk result (λ rebased. rebased.snapshot.roots ≡ roots) }
        ensures covered { IfOk result
            (λ rebased. rebased.snapshot.covered ≡ basis begin.now.entries) }
    {
        let snapshot = self.snapshot().rebased(begin, roots)?;
        Ok(Rebased { snapshot })
    }

    /// Its latest value over the trees of `ahead`, which is of a beginning of its history. Only what came since then is added.
    pub fn rebase_on(&self, ahead: &Snapshot) -> Result<Rebased, Memory>
        requires begins { upto self.now.snapshot.entries (basis ahead.now.entries)
            ≡ ahead.now.entries }
        ensures rebase { IfOk result (λ rebased. IsRebaseOf self.now rebased) }
        ensures roots { IfOk result (λ rebased. rebased.snapshot.roots ≡ ahead.now.roots) }
        ensures covered { IfOk result (λ rebased. rebased.snapshot.covered ≡ ahead.now.covered) }
    {
        let snapshot = ahead.caught_up(self.snapshot())?;
        Ok(Rebased { snapshot })
    }

    /// The newer trees are in use from now on. The history and its authors stay. It takes no memory. The value before is given
    /// back, to be dropped where nobody waits.
    pub fn adopt(&mut self, rebased: Rebased) -> Snapshot
        requires { IsRebaseOf self.old rebased }
        ensures core { self.new ≡ record self.old { snapshot = rebased.snapshot } }
        ensures before { result ≡ self.old.snapshot }
    {
        mem::replace(&mut self.parts.snapshot, rebased.snapshot)
    }
}
