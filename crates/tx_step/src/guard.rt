//! Rules of the caller's own.
ghost use Rattle.std.specs.Prelude.{◌≡◌, IfOk};
ghost use Rattle.fb_model.specs.Lawful.{IsLawful};
ghost use Rattle.tx_after.specs.After.{AreChanges};
ghost use Rattle.tx_model.specs.Step as model;

use fb_facts::Facts;
use fb_memory::Memory;
use fb_values::Datom;
use tx_refusals::Bar;

/// A rule of the caller's own, which may bar the changes of a transaction that breaks no other. It is shown the history before,
/// which is lawful, and the changes without the transaction's own instant, so what it answers cannot depend on the clock. They are
/// those of one entry, and a guard need not be right about any other list.
pub trait Guard<F: Facts> {
    /// By what it bars the changes after the history, if it does.
    ghost bars: { Self → model.Guard };

    fn judge(&self, before: &F, changes: &[Datom]) -> Result<Option<Bar>, Memory>
        requires lawful { IsLawful (F.history before.now) }
        requires changes { AreChanges changes.now }
        ensures { IfOk result (λ bar. bar ≡ bars self.now (F.history before.now) changes.now) };
}

/// Bars nothing.
#[derive(Clone, Copy)]
pub struct NoGuard;

impl<F: Facts> Guard<F> for NoGuard {
    ghost bars = { λ _. model.no_guard };

    fn judge(&self, _before: &F, _changes: &[Datom]) -> Result<Option<Bar>, Memory> {
        Ok(None)
    }
}
