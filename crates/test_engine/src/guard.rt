//! A guard to try.
ghost use Rattle.std.specs.Prelude.{◌≡◌};
ghost use Rattle.std.specs.List.{list_any};
ghost use Rattle.test_engine.specs.Guards as model;

use fb_memory::Memory;
use fb_values::{Datom, Entry, Value};
use fb_view::Snapshot;
use plain_step::Guard;
use tx_refusals::Bar;

const DOC: u64 = 7;

/// Bars, where it bars anything, a text that is added and has nothing in it.
#[derive(Clone, Copy)]
pub struct NoEmptyText {
    pub bars: bool,
}

fn is_empty_text(v: &Value) -> bool
    ensures { result ≡ model.is_empty_text v.now }
{
    match v {
        Value::Str(text) => text.len() == 0,
        _ => false,
    }
}

fn adds_empty_text(d: &Datom) -> bool
    ensures { result ≡ model.adds_empty_text d.now }
{
    d.added && d.a == DOC && is_empty_text(&d.v)
}

fn adds_an_empty_text(changes: &[Datom]) -> bool
    ensures { result ≡ list_any model.adds_empty_text changes.now }
{
    changes.iter().any(|d| adds_empty_text(d))
}

impl NoEmptyText {
    fn bar(&self, changes: &[Datom]) -> Option<Bar>
        ensures { result ≡ model.empty_text_bar self.now.bars changes.now }
    {
        if self.bars && adds_an_empty_text(changes) {
            Some(Bar::AttrPred)
        } else {
            None
        }
    }
}

impl Guard for NoEmptyText {
    fn judge(&self, _entries: &[Entry], changes: &[Datom]) -> Result<Option<Bar>, Memory> {
        Ok(self.bar(changes))
    }
}

impl tx_step::Guard<Snapshot> for NoEmptyText {
    ghost bars = { λ guard h changes. model.empty_text_bar guard.bars changes };

    fn judge(&self, _before: &Snapshot, changes: &[Datom]) -> Result<Option<Bar>, Memory> {
        Ok(self.bar(changes))
    }
}
