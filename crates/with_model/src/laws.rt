//! Laws about chains.
ghost use Rattle.std.specs.Prelude.{◌≡◌, ℕ, ℤ, pos, ◌+ℤ◌, List, ◌++◌, length};
ghost use Rattle.edn_model.specs.Form.{Form};
ghost use Rattle.fb_values.specs.declared.facts.Entry.{Entry};
ghost use Rattle.fb_numbers.specs.Numbers.{least_instant};
ghost use Rattle.fb_model.specs.History.{last_instant, next_instant};
ghost use Rattle.fb_model.specs.Lawful.{IsLawful};
ghost use Rattle.tx_model.specs.Transaction.{transaction};
ghost use Rattle.tx_model.specs.Step.{Guard, step, accepted, entry_of};
ghost use Rattle.with_model.specs.Chain.{TxReport, reaches, chain, continued};

/// What a chain comes to begins with its history and is lawful, and it has one entry more for each
/// transaction, of which each has a report.
pub fn a_chain_keeps_its_history()
    ensures lawful { (guard : Guard) (h reached : List Entry) (asked : List Form) (told : List TxReport)
        → IsLawful h
        → chain guard h asked ≡ reaches reached told
        → IsLawful reached }
    ensures begins { (guard : Guard) (h reached : List Entry) (asked : List Form) (told : List TxReport)
        → chain guard h asked ≡ reaches reached told
        → (entries : List Entry)
        × (reached ≡ h ++ entries)
        × (length entries ≡ length asked)
        × (length told ≡ length asked) }
{}

/// A chain of more transactions is the chain of the first ones, gone on with.
pub fn a_chain_goes_on()
    ensures { (guard : Guard) (h : List Entry) (first more : List Form)
        → chain guard h (first ++ more) ≡ continued guard (chain guard h first) more }
{}

/// At the least instant that a clock may read, the next instant is the last one and a millisecond.
pub fn instants_of_a_chain_follow_one_another()
    ensures { (h : List Entry)
        → IsLawful h
        → next_instant h least_instant ≡ last_instant h +ℤ pos 1 }
{}

/// A transaction that was tried is accepted at the same history whatever the clock reads, with the
/// same tempids, and it records the same changes beside its instant.
pub fn a_real_transaction_records_the_same()
    ensures { (h : List Entry) (asked : Form) (guard : Guard)
        → (tried : Entry) (tempids : List (List ℕ × ℕ)) (reading : ℤ)
        → step h asked least_instant guard ≡ accepted tried tempids
        → (forms : List Form)
        × (tried ≡ entry_of h (transaction h forms) (next_instant h least_instant))
        × (step h asked reading guard
        ≡ accepted (entry_of h (transaction h forms) (next_instant h reading)) tempids) }
{}
