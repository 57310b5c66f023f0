//! The transactions of the log.
ghost use Rattle.std.specs.Prelude.{◌≡◌, ◌∷◌, [], MatchOption};
ghost use Rattle.view_model.specs.Scan.{transactions};

use fb_history::EntryList;
use fb_values::Entry;
use fb_view::Snapshot;
use std::marker::Model;

/// Entries of a log in a row, which are lent one after another.
#[derive(Drop)]
pub struct Txs<'a> {
    entries: &'a EntryList,
    from: u32,
    to: u32,
}

impl<'a> Model for Txs<'a> {
    ghost use Rattle.std.specs.Prelude.{List, length, ◌≤◌};
    ghost use Rattle.fb_values.specs.declared.facts.Entry.{Entry};
    ghost use Rattle.fb_scan.specs.Logs.{part};

    ghost Value = { List Entry };

    ghost view = { λ txs. part txs.entries.now txs.from txs.to };

    ghost invariant = { λ txs. txs.to ≤ length txs.entries.now };
}

impl<'a> Txs<'a> {
    /// The next entry, until there is none.
    pub fn next(&mut self) -> Option<&'a Entry>
        ensures { MatchOption result ((self.old ≡ []) × (self.new ≡ []))
            (λ entry. self.old ≡ entry.now ∷ self.new) }
    {
        if self.from >= self.to {
            return None;
        }
        let entry = self.entries.at(self.from);
        self.from += 1;
        Some(entry)
    }
}

/// The transactions from t `from` on and before t `to`. No window and no filter hides one, and nothing is copied.
pub fn tx_range(snapshot: &Snapshot, from: u32, to: u32) -> Txs<'_>
    ensures { result ≡ transactions snapshot.now.entries from to }
{
    let entries = snapshot.entries();
    Txs {
        entries,
        from: from.max(1),
        to: to.min(entries.len()),
    }
}
