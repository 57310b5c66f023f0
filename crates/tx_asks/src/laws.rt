//! What follows of acts and asks.
ghost use Rattle.std.specs.Prelude.{◌≡◌, ℕ, false, List, [], map, filter};
ghost use Rattle.std.specs.Option.{option_map_or};
ghost use Rattle.tx_model.specs.Asks.{Ask, Name, names_of};
ghost use Rattle.tx_model.specs.Tempids.{Db, tempids_in, holders, assigned};
ghost use Rattle.tx_model.specs.Changes as changes;
ghost use Rattle.tx_model.specs.Transaction.{Transaction, joined};
ghost use Rattle.tx_model.specs.ChangeRules.{compares_many, compares_another};
ghost use Rattle.tx_asks.specs.Asks.{matters};
ghost use Rattle.tx_asks.specs.Acts.{act_of, additions_of, retractions_of, sweeps_of, is_cas_of_many, is_cas_of_another, IsSettled};

/// What an ask adds, retracts and finds is what its act does: nothing where it has none.
pub fn acts_ask_what_asks_do()
    ensures added { (db : Db) (names : List (Name × ℕ)) (ask : Ask)
        → changes.additions db names ask
        ≡ option_map_or (additions_of db) (act_of db names ask) [] }
    ensures retracted { (db : Db) (names : List (Name × ℕ)) (ask : Ask)
        → changes.retractions db names ask
        ≡ option_map_or (retractions_of db) (act_of db names ask) [] }
    ensures swept { (db : Db) (names : List (Name × ℕ)) (ask : Ask)
        → changes.sweeps db names ask ≡ option_map_or (sweeps_of db) (act_of db names ask) [] }
{}

/// What an ask compares is what its act does, where it has one if it asks for a change.
pub fn acts_compare_what_asks_do()
    ensures many { (tx : Transaction) (ask : Ask) → IsSettled tx.db tx.names ask
        → compares_many tx.db ask ≡ option_map_or is_cas_of_many (act_of tx.db tx.names ask) false }
    ensures another { (tx : Transaction) (ask : Ask) → IsSettled tx.db tx.names ask
        → compares_another tx ask
        ≡ option_map_or (is_cas_of_another tx.db) (act_of tx.db tx.names ask) false }
{}

/// An ask that only mentions an attribute, or says what a map lacks, names no entity, and gives none to a tempid.
pub fn asks_that_ask_for_nothing()
    ensures names { (ask : Ask) → matters ask ≡ false → names_of ask ≡ [] }
    ensures tempids { (asks : List Ask) → tempids_in (filter matters asks) ≡ tempids_in asks }
    ensures holders { (db : Db) (asks : List Ask) (name : Name)
        → holders db (filter matters asks) name ≡ holders db asks name }
    ensures assigned { (db : Db) (asks : List Ask)
        → assigned db (filter matters asks) ≡ assigned db asks }
    ensures joined { (asks : List (List Ask))
        → joined (map (filter matters) asks) ≡ filter matters (joined asks) }
{}
