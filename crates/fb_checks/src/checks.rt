//! A guard that is made of checks.
ghost use Rattle.std.specs.Prelude.{◌≡◌, [], ◌∷◌, ◌++◌, IfOk, IfErr};

use crate::barring::bar_of;
use crate::check::{BoxedCheck, Check};
use crate::kept::KeptCheck;
use crate::tests::{AttrTest, Need, Test};
use fb_memory::Memory;
use fb_text::Text;
use fb_values::Datom;
use fb_view::Snapshot;
use std::alloc::Global;
use tx_refusals::Bar;
use tx_step::Guard;

/// Tests of added values, and attributes that entities are required to have, in the order in which they were added. All of them
/// count: a name may come more than once.
#[derive(Drop)]
pub struct Checks {
    pub(crate) alloc: Global,
    pub(crate) preds: Vec<AttrTest<Test<BoxedCheck, KeptCheck>>>,
    pub(crate) needs: Vec<Need>,
}

impl Checks {
    /// A guard that bars nothing. It takes no memory.
    pub fn new(alloc: Global) -> Checks
        ensures preds { result.preds.items ≡ [] }
        ensures needs { result.needs.items ≡ [] }
    {
        Checks {
            alloc,
            preds: Vec::new(alloc),
            needs: Vec::new(alloc),
        }
    }

    /// Each value that is added under the attribute of this name has to pass the test.
    pub fn pred(&mut self, attr: Text, test: BoxedCheck) -> Result<(), Memory>
        ensures added { IfOk result (λ _. self.new.preds.items
            ≡ self.old.preds.items ++ record { attr = attr; test = Test.Stored test } ∷ []) }
        ensures unchanged { IfErr result (λ _. self.new.preds.items ≡ self.old.preds.items) }
        ensures needs { self.new.needs.items ≡ self.old.needs.items }
    {
        self.preds.push(AttrTest {
            attr,
            test: Test::Stored(test),
        })?;
        Ok(())
    }

    /// The same with a closure.
    pub fn keep(&mut self, attr: Text, kept: KeptCheck) -> Result<(), Memory>
        ensures added { IfOk result (λ _. self.new.preds.items
            ≡ self.old.preds.items ++ record { attr = attr; test = Test.Closure kept } ∷ []) }
        ensures unchanged { IfErr result (λ _. self.new.preds.items ≡ self.old.preds.items) }
        ensures needs { self.new.needs.items ≡ self.old.needs.items }
    {
        self.preds.push(AttrTest {
            attr,
            test: Test::Closure(kept),
        })?;
        Ok(())
    }

    /// Each entity of a change that has a value of the marker afterwards has to have one of the needed attribute.
    pub fn require(&mut self, marker: Text, needed: Text) -> Result<(), Memory>
        ensures added { IfOk result (λ _. self.new.needs.items
            ≡ self.old.needs.items ++ record { marker = marker; needed = needed } ∷ []) }
        ensures unchanged { IfErr result (λ _. self.new.needs.items ≡ self.old.needs.items) }
        ensures preds { self.new.preds.items ≡ self.old.preds.items }
    {
        self.needs.push(Need { marker, needed })?;
        Ok(())
    }
}

impl Guard<Snapshot> for Checks {
    ghost use Rattle.fb_checks.specs.Checks.{bars_of, preds_of, needs_of, passes_test};
    ghost use Rattle.fb_checks.specs.Decided.{passes_of};

    ghost bars = { λ c. bars_of
        (preds_of (passes_test (λ s. (Check-box s).passes s.value) (λ kept. passes_of kept.decided))
        c.preds.items)
        (needs_of c.needs.items) };

    fn judge(&self, before: &Snapshot, changes: &[Datom]) -> Result<Option<Bar>, Memory> {
        bar_of(self.alloc, &self.preds, &self.needs, before, changes)
    }
}
