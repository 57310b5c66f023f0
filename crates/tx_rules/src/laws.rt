//! What follows of the changes of a transaction.
ghost use Rattle.std.specs.Prelude.{◌≡◌};
ghost use Rattle.tx_model.specs.Transaction.{Transaction, with_names};
ghost use Rattle.tx_after.specs.After.{AreChanges};

/// They are those of one entry: they rise, and all are of one t.
pub fn changes_are_of_one_entry()
    ensures { (tx : Transaction) → tx ≡ with_names tx.db tx.asks tx.names → AreChanges tx.changes }
{}
