//! Whether the guard that was handed in counts.
ghost use Rattle.fb_run.specs.Strict.{guarded};

use fb_core::Guard;
use fb_memory::Memory;
use fb_values::Datom;
use fb_view::Snapshot;
use tx_refusals::Bar;

/// The guard where the command is strict, and else none. All that runs below has this one type of guard, with `--strict` and without.
#[derive(Drop)]
pub(crate) struct Chosen<'a, G> {
    pub(crate) strict: bool,
    pub(crate) guard: &'a G,
}

impl<G: Guard<Snapshot>> Guard<Snapshot> for Chosen<'_, G> {
    ghost bars = { λ chosen. guarded chosen.strict (G.bars chosen.guard.now) };

    fn judge(&self, before: &Snapshot, changes: &[Datom]) -> Result<Option<Bar>, Memory> {
        if self.strict {
            self.guard.judge(before, changes)
        } else {
            Ok(None)
        }
    }
}
