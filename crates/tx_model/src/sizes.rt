//! How large an entry may be.
ghost use Rattle.std.specs.Prelude.{◌≡◌, ◌+◌, ◌<◌, ◌≤◌, ℕ, ℤ, [], ◌∷◌, List, length, true, false, codes};
ghost use Rattle.edn_model.specs.Form.{Form};
ghost use Rattle.fb_values.specs.declared.facts.Entry.{Entry};
ghost use Rattle.fb_numbers.specs.Numbers.{most_datoms};
ghost use Rattle.tx_model.specs.Size.{entry_size, most_bytes, instant_size};
ghost use Rattle.tx_model.specs.Transaction.{Transaction, transaction, recorded};
ghost use Rattle.tx_model.specs.ChangeRules.{breaks_too_large};
ghost use Rattle.tx_model.specs.Step.{Guard, step, accepted};
ghost use Rattle.tx_model.specs.Samples.{string, tempid, add, doc, clock};
ghost use Rattle.tx_model.specs.SampleHistories.{new_database};

/// A text of two letters and the instant have 67 bytes.
pub fn the_bytes_of_an_entry()
    ensures { entry_size (recorded (transaction new_database
        (add (tempid (codes "x")) doc (string (codes "hi")) ∷ [])) clock)
        ≡ 67 }
{}

/// With its instant an entry may have `MOST_DATOMS` datoms and `LARGEST_ENTRY` bytes, and no more.
pub fn entries_that_are_too_large()
    ensures fits { (tx : Transaction)
        → length tx.changes + 1 ≤ most_datoms
        → entry_size tx.changes + instant_size ≤ most_bytes
        → breaks_too_large tx ≡ false }
    ensures too_many { (tx : Transaction)
        → most_datoms < length tx.changes + 1
        → breaks_too_large tx ≡ true }
    ensures too_long { (tx : Transaction)
        → most_bytes < entry_size tx.changes + instant_size
        → breaks_too_large tx ≡ true }
{}

/// The entry of an accepted transaction has no more bytes than an entry may have.
pub fn an_accepted_entry_is_not_too_large()
    ensures { (h : List Entry) (asked : Form) (guard : Guard) (reading : ℤ)
        → (entry : Entry) (tempids : List (List ℕ × ℕ))
        → step h asked reading guard ≡ accepted entry tempids
        → entry_size entry.datoms ≤ most_bytes }
{}
